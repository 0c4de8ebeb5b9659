// What a packet was answered, in words.
use crate::columns::{say, say_hex, say_number, say_octets};
use answers::Refusal;

// A refusal in a few words, those of lv_answer_text (include/landing_voice.h).
pub(crate) fn text_of(number: u8) -> &'static [u8] {
    match number {
        1 => b"no octet",
        2 => b"index past length",
        3 => b"length past maximum",
        4 => b"table cut",
        5 => b"reserved type",
        6 => b"too many frames",
        7 => b"bodies cut",
        8 => b"octets left",
        9 => b"header-free length",
        10 => b"another source",
        11 => b"contradicts the group",
        12 => b"later group",
        13 => b"earlier group",
        14 => b"packet differs",
        15 => b"no room",
        16 => b"too far ahead",
        17 => b"not sendable",
        18 => b"wrong opening",
        19 => b"body cut",
        20 => b"not the same group",
        21 => b"not applicable",
        24 => b"off the clock",
        _ => b"no such answer",
    }
}

// An octet of the payload, and what it is.
fn say_octet(words: &[u8], at: usize, payload: &[u8]) {
    say(words);
    say_number(b", octet ", at as u64, b" of the payload");
    if let Some(octet) = payload.get(at) {
        say(b": 0x");
        say_hex(u64::from(*octet), 2);
    }
}

// An octet of the payload from which on something is wrong, and how many octets the payload has.
fn say_from(before: &[u8], at: usize, after: &[u8], payload: &[u8]) {
    say_number(before, at as u64, after);
    say(b", the payload has ");
    say_octets(payload.len());
}

// A refusal: its number, and what is wrong where.
pub(crate) fn say_refusal(reason: Refusal, payload: &[u8]) {
    let number = reason.number();
    say_number(b"refused ", u64::from(number), b": ");
    match reason {
        Refusal::TableCut(octets) => {
            say(b"the table of contents runs past the payload's end, ");
            say_octets(octets);
        }
        Refusal::ReservedType(at) => say_octet(b"reserved type", at, payload),
        Refusal::TooManyFrames(at) => say_octet(b"an entry past the agreed maximum", at, payload),
        Refusal::BodiesCut(at) => say_from(
            b"the body that begins at octet ",
            at,
            b" does not fit",
            payload,
        ),
        Refusal::OctetsLeft(at) => say_from(b"octets left over from octet ", at, b" on", payload),
        _ => say(text_of(number)),
    }
}

// A packet that is taken: also a repeat, and one put into the group that is held.
pub(crate) fn say_taken(lost: usize) {
    say(b"taken");
    if 0 < lost {
        say_number(b", lost frames before it: ", lost as u64, b"");
    }
}
