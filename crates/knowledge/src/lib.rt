// No code: what a holding knows (document 01, "Groups"), and that equal knowledge is equal content; `specs/` states, `proofs/` proves.
#![tactic(auto)]
