// Octets in slices: copied, filled, compared, tested for zero, read and written as numbers; flags, tested for one that is set.
#![tactic(auto)]

ghost use Rattle.std.specs.Prelude.{◌≡◌, ◌+◌, ◌*◌, ◌≤◌, ◌&&◌, map, length, replicate, ◌==◌};
ghost use Rattle.octets.specs.Octets.{over, same_octets, all_zero, any_set, shifted, two_at, four_at, two_octets, four_octets};

// internal: a caller has tested the room before the first octet is written.
// Copies src over dst from index at on. Octet by octet, since std's `copy_from_slice` asks for memmove of what lies around, and the C
// library asks for memcpy and memset alone.
pub fn copy(dst: &mut [u8], at: usize, src: &[u8])
    requires { at + length src.now ≤ length dst.old }
    ensures { dst.new ≡ over dst.old at src.now }
{
    for (i, x) in src.iter().enumerate() {
        dst[at + i] = *x;
    }
}

// internal: a caller has tested the room before the first octet is written.
// Writes n octets of x over dst from index at on.
pub fn fill(dst: &mut [u8], at: usize, n: usize, x: u8)
    requires { at + n ≤ length dst.old }
    ensures { dst.new ≡ over dst.old at (replicate n x) }
{
    dst[at..at + n].fill(x);
}

// internal: a caller has tested the room before the first octet is written.
// Copies src over dst from index at on, each octet with `by` added, modulo 256.
pub fn copy_shifted(dst: &mut [u8], at: usize, src: &[u8], by: u8)
    requires { at + length src.now ≤ length dst.old }
    ensures { dst.new ≡ over dst.old at (map (shifted by) src.now) }
{
    for (i, x) in src.iter().enumerate() {
        dst[at + i] = x.wrapping_add(by);
    }
}

// Whether a and b are the same octets, and as many. It goes to the end whatever it meets: so it is done many octets at a time
// (`a == b` looks after each few whether to go on, and takes 1.4 times as long for 2,304 octets).
pub fn same(a: &[u8], b: &[u8]) -> bool
    ensures { result ≡ same_octets a.now b.now }
{
    a.len() == b.len() && a.iter().zip(b).fold(true, |alike, (x, y)| alike & (x == y))
}

// Whether every octet of s is zero, to the end likewise.
pub fn zeros(s: &[u8]) -> bool
    ensures { result ≡ all_zero s.now }
{
    s.iter().fold(true, |clear, x| clear & (*x == 0))
}

// Whether some flag of s is set.
pub fn any(s: &[bool]) -> bool
    ensures { result ≡ any_set s.now }
{
    s.contains(&true)
}

// ---- numbers of two and of four octets: std reads and writes each width by a method of its own, so that one function over the width
// would need a trait of four members for these four lines

// internal: a caller has tested the length.
// The big-endian number of two octets at index at.
pub fn two(s: &[u8], at: usize) -> u16
    requires { at + 2 ≤ length s.now }
    ensures { result ≡ two_at s.now at }
{
    u16::from_be_bytes([s[at], s[at + 1]])
}

// internal: a caller has tested the length.
// The big-endian number of four octets at index at.
pub fn four(s: &[u8], at: usize) -> u32
    requires { at + 4 ≤ length s.now }
    ensures { result ≡ four_at s.now at }
{
    u32::from_be_bytes([s[at], s[at + 1], s[at + 2], s[at + 3]])
}

// internal: a caller has tested the room before the first octet is written.
// Writes a number as two octets, big-endian, from index at on.
pub fn put_two(dst: &mut [u8], at: usize, x: u16)
    requires { at + 2 ≤ length dst.old }
    ensures { dst.new ≡ over dst.old at (two_octets x) }
{
    dst[at..at + 2].copy_from_slice(&x.to_be_bytes());
}

// internal: a caller has tested the room before the first octet is written.
// Writes a number as four octets, big-endian, from index at on.
pub fn put_four(dst: &mut [u8], at: usize, x: u32)
    requires { at + 4 ≤ length dst.old }
    ensures { dst.new ≡ over dst.old at (four_octets x) }
{
    dst[at..at + 4].copy_from_slice(&x.to_be_bytes());
}
