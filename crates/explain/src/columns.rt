// Words on standard output, and numbers in columns.

// std's `print!` reads `errno`, on which this program would then rest besides `write`: so it writes by `io`.

// The numbers of the files that a program writes.
const STDOUT_FILENO: i32 = 1;

const STDERR_FILENO: i32 = 2;

// These words.
pub(crate) fn say(words: &[u8]) {
    io::write_all(STDOUT_FILENO, words);
}

// The last words. The status tells nothing: where standard output cannot be written, a line on standard error says so.
pub(crate) fn say_last(words: &[u8]) {
    if !io::write_all(STDOUT_FILENO, words) {
        io::write_all(
            STDERR_FILENO,
            b"explain: standard output cannot be written\n",
        );
    }
}

// Words, a number, and words.
pub(crate) fn say_number(before: &[u8], number: u64, after: &[u8]) {
    say(before);
    io::print_decimal(STDOUT_FILENO, number);
    say(after);
}

// So many octets.
pub(crate) fn say_octets(count: usize) {
    say_number(b"", count as u64, b" octet");
    if count != 1 {
        say(b"s");
    }
}

// A number of so many hexadecimal digits.
pub(crate) fn say_hex(number: u64, digits: usize) {
    io::print_hex(STDOUT_FILENO, number, digits);
}

// Spaces, where a column of at most 12 has more characters than are used.
fn say_spaces(column: usize, used: usize) {
    if let Some(spaces) = b"            ".get(..column.saturating_sub(used)) {
        say(spaces);
    }
}

// A number at the right of a column, and two spaces behind it.
pub(crate) fn say_right(number: u64, column: usize) {
    let mut digits = [0; 20];
    let count = io::decimal(number, &mut digits);
    say_spaces(column, count);
    say(&digits[..count]);
    say(b"  ");
}
