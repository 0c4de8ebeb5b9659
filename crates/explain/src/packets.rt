// A line for each packet: its numbers, L, N and B, and what it was answered.
ghost use Rattle.std.specs.Prelude.{◌+◌, ◌*◌, ◌≤◌, length};

use crate::answer::{say_refusal, say_taken};
use crate::columns::{say, say_hex, say_right};
use capture::CaptureError;
use form::{Form, Limits};

// Of a payload that cannot be read: L and N, where it has an octet 0.
fn say_head(payload: &[u8]) {
    if let Some(head) = payload.first() {
        say_right(u64::from(head / 8 % 8), 1);
        say_right(u64::from(head % 8), 1);
        say(b" -  ");
    } else {
        say(b"-  -   -  ");
    }
}

// L, N and B of a payload, as far as it can be read.
fn say_shape(payload: &[u8]) {
    let form = Form::Interleaved(Limits {
        max_l: 7,
        max_b: 10,
    });
    if let Ok(read) = payload::read(form, payload) {
        say_right(u64::from(read.l), 1);
        say_right(u64::from(read.n), 1);
        say_right(u64::from(read.b), 2);
    } else {
        say_head(payload);
    }
}

// The numbers of packet i.
fn say_numbers(capture: &[u8], i: usize)
    requires { 2 + 12 * (i + 1) ≤ length capture.now }
{
    let row = 2 + 12 * i;
    say_right(i as u64, 6);
    say_hex(u64::from(octets::four(capture, row)), 8);
    say(b"  ");
    say_right(u64::from(octets::two(capture, row + 4)), 8);
    say_right(u64::from(octets::four(capture, row + 6)), 10);
}

// The line of packet i, and the number of its answer: 0 where it was taken.
fn explain_packet(capture: &[u8], i: usize, payload: &[u8]) -> u8
    requires { 2 + 12 * (i + 1) ≤ length capture.now }
{
    say_numbers(capture, i);
    say_shape(payload);
    let number = match capture::answer(capture, i) {
        Ok(lost) => {
            say_taken(lost);
            0
        }
        Err(CaptureError::Refused(reason)) => {
            say_refusal(reason, payload);
            reason.number()
        }
        Err(CaptureError::BadCapture) => return 0,
    };
    say(b"\n");
    number
}

// The payload of packet i, which begins at start.
fn payload_at(capture: &[u8], i: usize, start: usize) -> &[u8]
    requires { (2 + 12 * (i + 1) ≤ length capture.now) × (start ≤ length capture.now) }
    ensures { start + length result.now ≤ length capture.now }
{
    let size = usize::from(octets::two(capture, 2 + 12 * i + 10));
    if size <= capture.len() - start {
        &capture[start..start + size]
    } else {
        &[]
    }
}

// The lines of all packets, and how often each number was answered.
pub(crate) fn explain_packets(capture: &[u8], count: usize) -> [u64; 256]
    requires { 2 + 12 * count ≤ length capture.now }
{
    let mut tally = [0u64; 256];
    let mut start = 2 + 12 * count;
    for i in 0..count {
        let payload = payload_at(capture, i, start);
        let number = usize::from(explain_packet(capture, i, payload));
        tally[number] = tally[number].wrapping_add(1);
        start += payload.len();
    }
    tally
}
