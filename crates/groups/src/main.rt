// Two boxes' holdings of one group, joined and poured, once for each octet of standard input (at most 65,536). Each round changes
// a body by its octet, so that no round is the one before. Writes how many octets were poured in all, and what was poured last.
#![tactic(auto)]

ghost use Rattle.std.specs.Prelude.{◌<◌};

use answers::Refusal;
use bundle::Bundle;
use holding::Holding;
use numbers::GroupNumbers;

// The numbers of the files that a program reads and writes.
const STDIN_FILENO: i32 = 0;

const STDOUT_FILENO: i32 = 1;

// A packet of ten full rate frames, its bodies all of octet x.
fn full(x: u8) -> Bundle {
    Bundle {
        marks: [4; 10],
        room: [x; 220],
    }
}

// A group of L 5 and B 10 of which nothing is held.
fn group() -> Holding {
    let numbers = GroupNumbers {
        sequence: 65535,
        timestamp: 4294967136,
        l: 5,
        b: 10,
    };
    holding::begin(7, numbers)
}

// The group with three packets, from the first on or from the second on.
fn half(first: usize) -> Holding
    requires { first < 3 }
{
    let one = holding::with_packet(group(), first, full(0x11));
    let two = holding::with_packet(one, first + 2, full(0x22));
    holding::with_packet(two, first + 4, full(0x33))
}

// One round: the octets that were poured.
fn round(a: Holding, b: Holding, out: &mut [u8]) -> Result<usize, Refusal> {
    pouring::pour(joining::join(a, b)?, out)
}

// Joins two halves of a group and pours the outcome once for each octet of the input, which stands in a body; tells the octets
// poured in all, none in a round that is refused, and writes the last ones.
fn main() {
    let mut out = [0; 1840];
    let mut a = half(0);
    let b = half(1);
    let mut input = io::large_buffer();
    let count = io::read_full(STDIN_FILENO, &mut input);
    let mut total: u64 = 0;
    for octet in &input[..count] {
        a.room[0] = *octet;
        total = total.wrapping_add(round(a, b, &mut out).unwrap_or(0) as u64);
    }
    io::print_decimal(STDOUT_FILENO, total);
    io::write_all(STDOUT_FILENO, &out);
}
