// Reads a capture from standard input and tells on standard output, for a person, what became of each of its packets; then how
// many were taken and refused, and what its recording holds. A bad capture gives the line "bad capture" and no more: the recorder
// tells why.
#![tactic(auto)]

mod answer;
mod columns;
mod packets;
mod totals;

use columns::{say, say_last};

// The number of the file that a program reads.
const STDIN_FILENO: i32 = 0;

// A good capture: its packets, what they were answered in all, and its recording.
fn explain(capture: &[u8]) {
    if capture.len() < 2 {
        return;
    }
    let count = usize::from(octets::two(capture, 0));
    if capture.len() < 2 + 12 * count {
        return;
    }
    say(b"Packets, and octets of a payload, are counted from 0.\n");
    say(b"packet  source    sequence   timestamp  L  N   B  answer\n");
    let tally = packets::explain_packets(capture, count);
    totals::say_packets(count, &tally);
    totals::say_recording(capture);
}

// A capture is judged before it is explained. Input longer than a capture is bad; then the line of document 01 is all.
fn main() {
    let mut input = io::large_buffer();
    let count = io::read_full(STDIN_FILENO, &mut input);
    let mut more = [0];
    let left = io::read_full(STDIN_FILENO, &mut more);
    let capture = &input[..count];
    if 0 < left || capture::judge(capture).is_err() {
        say_last(b"bad capture\n");
    } else {
        explain(capture);
    }
}
