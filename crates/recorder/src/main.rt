// Reads a capture from standard input and writes its recording to standard output, or the line "bad capture", with the reason on
// standard error. Nothing is written before the whole capture is judged.
#![tactic(auto)]

use capture::Fault;

// The numbers of the three files that a program is given.
const STDIN_FILENO: i32 = 0;

const STDOUT_FILENO: i32 = 1;

const STDERR_FILENO: i32 = 2;

// std's `print!` reads `errno`, on which this program would then rest besides `write`: so it writes by `io`.

// The status tells nothing: where standard output cannot be written, a line on standard error says so.
fn say(octets: &[u8]) {
    if !io::write_all(STDOUT_FILENO, octets) {
        io::write_all(
            STDERR_FILENO,
            b"recorder: standard output cannot be written\n",
        );
    }
}

// The reason, for a person, on standard error: the line is WORDS NUMBER WORDS.
fn tell(before: &[u8], number: usize, after: &[u8]) {
    io::write_all(STDERR_FILENO, before);
    io::print_decimal(STDERR_FILENO, number as u64);
    io::write_all(STDERR_FILENO, after);
}

// The octets that are needed, and those that are there.
fn tell_cut(before: &[u8], need: usize, octets: usize) {
    tell(before, need, b" octets, and it has ");
    tell(b"", octets, b"\n");
}

// Why so many octets are no capture.
fn tell_why(fault: Fault, octets: usize) {
    match fault {
        Fault::TooLong => tell(b"bad capture: it has more than ", 65536, b" octets\n"),
        Fault::NoCount => tell(
            b"bad capture: a count has 2 octets, and it has ",
            octets,
            b"\n",
        ),
        Fault::TooManyPackets(count) => tell(
            b"bad capture: its count is ",
            count,
            b", and the most is 256 packets\n",
        ),
        Fault::TableCut(need) => tell_cut(b"bad capture: its table needs ", need, octets),
        Fault::PayloadsCut(need) => tell_cut(
            b"bad capture: its table and payloads need ",
            need,
            octets,
        ),
        Fault::OctetsLeft(end) => tell(
            b"bad capture: octets left over after the last payload: ",
            octets.saturating_sub(end),
            b"\n",
        ),
    }
}

// The line of document 01, and the reason beside it.
fn say_bad(judged: Result<(), Fault>, octets: usize) {
    say(b"bad capture\n");
    if let Err(fault) = judged {
        tell_why(fault, octets);
    }
}

// There is room for any recording, so none is refused.
fn say_recording(capture: &[u8]) {
    let mut out = capture::room();
    match capture::record(capture, &mut out) {
        Ok(count) => {
            if let Some(recording) = out.get(..count) {
                say(recording);
            }
        }
        Err(_) => say_bad(capture::judge(capture), capture.len()),
    }
}

// Input longer than a capture is bad.
fn main() {
    let mut input = io::large_buffer();
    let count = io::read_full(STDIN_FILENO, &mut input);
    let mut more = [0];
    if 0 < io::read_full(STDIN_FILENO, &mut more) {
        say_bad(Err(Fault::TooLong), count);
    } else {
        say_recording(&input[..count]);
    }
}
