// What became of all packets, and what the recording holds.
ghost use Rattle.std.specs.Prelude.{◌<◌, ◌≤◌, length};

use crate::answer::text_of;
use crate::columns::{say, say_last, say_number};
use frame::Vocoder;

// The type of an erasure.
const ERASURE: u8 = 14;

// The octets before the first entry of a recording.
const OPENING: usize = 7;

// Answers are counted and told by their numbers, in that order, as `lv_answer_text` has them.

// How many packets were refused with a number, if any was.
fn say_count(number: u8, count: u64) {
    if 0 < count {
        say_number(b"  ", u64::from(number), b", ");
        say(text_of(number));
        say_number(b": ", count, b"\n");
    }
}

// How many packets were taken and refused, of so many; then a line for each number with which packets were refused.
pub(crate) fn say_packets(count: usize, tally: &[u64; 256]) {
    let taken = tally[0];
    say_number(b"packets taken: ", taken, b"\n");
    say_number(
        b"packets refused: ",
        (count as u64).wrapping_sub(taken),
        b"\n",
    );
    for number in 1..255 {
        say_count(number, tally[usize::from(number)]);
    }
}

// The entry behind one, of which the body has so many octets.
fn next(recording: &[u8], at: usize, size: usize) -> usize
    requires { at < length recording.now }
    ensures { (at < result) × (result ≤ length recording.now) }
{
    if size < recording.len() - at {
        at + 1 + size
    } else {
        recording.len()
    }
}

// The walk steps by each body's octets, so it is no `for`.
// The erasures of a recording.
fn erasures(recording: &[u8]) -> u64 {
    let mut found: u64 = 0;
    let mut at = OPENING;
    while at < recording.len() {
        let kind = recording[at] % 64;
        if kind == ERASURE {
            found = found.wrapping_add(1);
        }
        at = next(recording, at, frame::body_size(Vocoder::Evrc, kind));
    }
    found
}

// What a recording holds.
fn say_frames(recording: &[u8]) {
    if let Ok(count) = recording::read(Vocoder::Evrc, recording) {
        say_number(b"frames in the recording: ", count as u64, b"\n");
        say_number(b"erasures among them: ", erasures(recording), b"");
    }
    say_last(b"\n");
}

// What the recording of a capture holds. There is room for any.
pub(crate) fn say_recording(capture: &[u8]) {
    let mut out = capture::room();
    if let Ok(count) = capture::record(capture, &mut out)
        && let Some(recording) = out.get(..count)
    {
        say_frames(recording);
    }
}
