// No code: specs/ states what the whole promises, and proofs/ has a proof of each claim.
#![tactic(auto)]
