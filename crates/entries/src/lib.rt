// Entries, one octet and then the body (document 01, "Recordings" and "Writing packets"): counted by a rule, sought, written with F and D cleared.
#![tactic(auto)]

ghost use Rattle.std.specs.Prelude.{◌≡◌, ◌+◌, ◌<◌, ◌≤◌, length, take, drop};
ghost use Rattle.frame.specs.FrameTable.{rows_of};
ghost use Rattle.frame.specs.Places.{taken};
ghost use Rattle.octets.specs.Octets.{over};
ghost use Rattle.entries.specs.Counting.{counted_of};
ghost use Rattle.entries.specs.Kind.{kind_of};
ghost use Rattle.entries.specs.Entries.{allowed, entries_from, entries_in, frames_in, cleared};

use answers::Refusal;
use frame::Vocoder;

// Which frames entries may hold: any; those that may be sent; those that may be sent without a header.
#[derive(Clone, Copy, Debug, PartialEq, Eq)]
pub enum Rule {
    Any,
    Sendable,
    HeaderFree,
}

// Whether a rule allows a frame: any; those that may be sent; those of them that have a body.
#[tactic(auto, unfolding(crate::specs::Entries::allowed))]
fn allows(vocoder: Vocoder, rule: Rule, kind: u8, body: &[u8]) -> bool
    ensures { result ≡ allowed (rows_of vocoder) rule (record { type = kind; body = body.now }) }
{
    match rule {
        Rule::Any => true,
        Rule::Sendable => frame::is_sendable(vocoder, kind, body),
        Rule::HeaderFree => 0 < body.len() && frame::is_sendable(vocoder, kind, body),
    }
}

// The walk over the entries that stand from an octet on, which ends at the first fault it meets. A place is counted in all the octets.
pub fn count(vocoder: Vocoder, rule: Rule, entries: &[u8], from: usize) -> Result<usize, Refusal>
    ensures { result ≡ counted_of (entries_from (kind_of vocoder) rule from (drop from entries.now)) }
{
    let mut n = 0usize;
    let mut at = from;
    // The customer's paper names this form for this place, so it is no `for`.
    'entries: loop {
        if entries.len() <= at {
            break 'entries Ok(n);
        }
        let kind = entries[at] % 64;
        let Some(row) = frame::row_of(vocoder, kind) else {
            break 'entries Err(Refusal::ReservedType(at));
        };
        let start = at + 1;
        if entries.len() - start < row.octets {
            break 'entries Err(Refusal::BodyCut(at));
        }
        let next = start + row.octets;
        if !allows(vocoder, rule, kind, &entries[start..next]) {
            break 'entries Err(Refusal::NotSendable);
        }
        n += 1;
        at = next;
    }
}

// internal: a caller has walked the entries, and k is below their count.
// The place of entry k among entries.
pub fn seek(vocoder: Vocoder, entries: &[u8], k: usize) -> usize
    requires { k < length (frames_in (entries_in (kind_of vocoder) Rule.Any entries.now)) }
    ensures { result ≡ taken 1 (take k (frames_in (entries_in (kind_of vocoder) Rule.Any entries.now))) }
{
    let mut at = 0;
    for _ in 0..k {
        at += 1 + frame::body_size(vocoder, entries[at] % 64);
    }
    at
}

// internal: a caller has walked the entries and tested the room.
// Writes entries over out from index at on, with F and D cleared.
pub fn write_cleared(vocoder: Vocoder, out: &mut [u8], at: usize, entries: &[u8])
    requires { at + length entries.now ≤ length out.old }
    ensures { out.new ≡ over out.old at (cleared (kind_of vocoder) 0 entries.now) }
{
    let mut left = 0;
    for (i, x) in entries.iter().enumerate() {
        if 0 < left {
            out[at + i] = *x;
            left -= 1;
        } else {
            let kind = *x % 64;
            out[at + i] = kind;
            left = frame::body_size(vocoder, kind);
        }
    }
}
