// Groups (document 01, "Groups"): the holding, one group as far as heard; whether it keeps the rule; a packet put in and compared;
// what a host of two boxes asks of holdings.
#![tactic(auto)]

ghost use Rattle.std.specs.Prelude.{◌≡◌, ℕ, ◌<◌, ◌≤◌, length};
ghost use Rattle.bundle.specs.Bundles.{as_bundle, OfPacket, same_bundles};
ghost use Rattle.frame.specs.FrameTable.{rows_of};
ghost use Rattle.frame.specs.Shape.{holding_shape, packets_of, room_of, shape_of, voice_of, voice_with};
ghost use Rattle.octets.specs.Octets.{all_below};
ghost use Rattle.holding.specs.Group.{OfGroup, Spanning, group_of, voice_in, nothing, begun, numbers_of, bare, is_nothing, held_at, bundle_of, bundle_at, with_packet};
ghost use Rattle.holding.specs.Group.{packet_right, right_of, sound, holds};
ghost use Rattle.holding.specs.Asked.{with_bit, bits_of, described, lost_by, lost_between};

use answers::Refusal;
use bundle::{Bundle, Cells};
use frame::Vocoder;
use numbers::{GroupNumbers, Verdict};

// One group as far as heard. Frame k of packet n has its type at marks[10 * n + k] and its body at room[220 * n + 22 * k ..].
// The customer's paper names this form: room in one zeroed array, carried by value with its marks.
#[derive(Clone, Copy, Debug, PartialEq, Eq)]
pub struct Holding {
    pub source: u32,
    pub numbers: GroupNumbers,
    pub held: [bool; 8],
    pub marks: [u8; 80],
    pub room: [u8; 1760],
}

// What a holding is: its source, the numbers of its group, and which packets it holds, bit N for packet N.
#[derive(Clone, Copy, Debug, PartialEq, Eq)]
pub struct Described {
    pub source: u32,
    pub numbers: GroupNumbers,
    pub held: u8,
}

// The parts of a group, wherever they lie: which packets are held, and the types and cells of all of them.
#[derive(Clone, Copy)]
pub struct Group<'a> {
    pub held: &'a [bool],
    pub cells: Cells<'a>,
}

impl Holding {
    // The parts of its group.
    pub fn parts(&self) -> Group<'_>
        ensures { (result.held.now ≡ self.now.held)
            × (result.cells.marks.now ≡ self.now.marks)
            × (result.cells.room.now ≡ self.now.room)
            × Spanning holding_shape result }
    {
        Group {
            held: &self.held,
            cells: Cells {
                marks: &self.marks,
                room: &self.room,
            },
        }
    }
}

// internal: a caller counts up to the packets of the vocoder, or n comes from a payload that was read.
// The types and cells of packet n of a group.
pub fn packet_of<'a>(vocoder: Vocoder, cells: Cells<'a>, n: usize) -> Cells<'a>
    requires { (n < packets_of (shape_of vocoder)) × OfGroup (shape_of vocoder) cells }
    ensures { (as_bundle result ≡ bundle_of (shape_of vocoder) cells.entry.marks.now cells.entry.room.now n)
        × OfPacket (shape_of vocoder) result }
{
    let at = 10 * n;
    let octets = frame::cell_of(vocoder) * 10;
    let from = octets * n;
    Cells {
        marks: &cells.marks[at..at + 10],
        room: &cells.room[from..from + octets],
    }
}

// The types of a group of which nothing is held: erasures.
#[tactic(auto, unfolding(crate::specs::Group::nothing, crate::specs::Group::begun))]
fn no_marks() -> [u8; 80]
    ensures { result ≡ (nothing holding_shape).marks }
{
    [14u8; 80]
}

// The room of a group of which nothing is held: zeros.
#[tactic(auto, unfolding(crate::specs::Group::nothing, crate::specs::Group::begun))]
fn no_room() -> [u8; 1760]
    ensures { result ≡ (nothing holding_shape).room }
{
    [0u8; 1760]
}

// A group of which no packet is held yet.
#[tactic(auto, unfolding(crate::specs::Group::begun, crate::specs::Group::nothing))]
pub fn begin(source: u32, numbers: GroupNumbers) -> Holding
    ensures { result ≡ begun holding_shape source numbers }
{
    Holding {
        source,
        numbers,
        held: [false; 8],
        marks: no_marks(),
        room: no_room(),
    }
}

// The numbers of the group that is held.
pub fn numbers_of(group: Holding) -> GroupNumbers
    ensures { result ≡ numbers_of group }
{
    group.numbers
}

// A holding of nothing.
#[tactic(auto, unfolding(crate::specs::Group::nothing))]
pub fn nothing() -> Holding
    ensures { result ≡ nothing holding_shape }
{
    begin(0, GroupNumbers::default())
}

// Whether no packet is held, every place reads as an erasure, and all room is zero.
#[tactic(auto, unfolding(crate::specs::Group::bare))]
fn is_bare(group: Group<'_>) -> bool
    ensures { (source : ℕ) (g : GroupNumbers) → result ≡ bare holding_shape (group_of source g group.entry) }
{
    !octets::any(group.held)
        && octets::same(group.cells.marks, &no_marks())
        && octets::zeros(group.cells.room)
}

// internal: for a holding whose parts lie apart.
// Whether it is a holding of nothing.
#[tactic(auto, unfolding(crate::specs::Group::is_nothing))]
pub fn is_nothing_in(source: u32, numbers: GroupNumbers, group: Group<'_>) -> bool
    ensures { result ≡ is_nothing holding_shape (group_of source numbers group.entry) }
{
    source == 0 && numbers == GroupNumbers::default() && is_bare(group)
}

// Whether h is a holding of nothing.
pub fn is_nothing(h: Holding) -> bool
    ensures { result ≡ is_nothing holding_shape h }
{
    is_nothing_in(h.source, h.numbers, h.parts())
}

// internal: n comes from a payload that was read, so it is at most 7.
// The holding with packet n put in.
#[tactic(auto, unfolding(crate::specs::Group::with_packet))]
pub fn with_packet(h: Holding, n: usize, p: Bundle) -> Holding
    requires { n < 8 }
    ensures { result ≡ with_packet holding_shape h n p }
{
    let mut next = h;
    next.held[n] = true;
    octets::copy(&mut next.marks, 10 * n, &p.marks);
    octets::copy(&mut next.room, 220 * n, &p.room);
    next
}

// internal: n comes from a payload that was read, so it is at most 7.
// Whether packet n is held.
#[tactic(auto, unfolding(crate::specs::Group::held_at))]
pub fn is_held(h: Holding, n: usize) -> bool
    requires { n < 8 }
    ensures { result ≡ held_at h n }
{
    h.held[n]
}

// internal: for a holding whose parts lie apart; n comes from a payload that was read, so it is at most 7.
// Whether packet n's frames, of these types and cells, are those of p.
#[tactic(auto, unfolding(frame::specs::Shape::shape_of), using(crate::proofs::GroupLaws::cut_out))]
pub fn same_packet_in(cells: Cells<'_>, n: usize, p: Bundle) -> bool
    requires { (n < 8) × OfGroup holding_shape cells }
    ensures { result ≡ same_bundles (bundle_of holding_shape cells.entry.marks.now cells.entry.room.now n) p }
{
    bundle::same_bundles(packet_of(Vocoder::Evrc, cells, n), p.cells())
}

// internal: n comes from a payload that was read, so it is at most 7.
// Whether packet n's frames are those of p.
pub fn same_packet(h: Holding, n: usize, p: Bundle) -> bool
    requires { n < 8 }
    ensures { result ≡ same_bundles (bundle_at holding_shape h n) p }
{
    same_packet_in(h.parts().cells, n, p)
}

// Whether packet n, held or not, keeps the rule in a group of these numbers.
#[tactic(auto, unfolding(crate::specs::Group::packet_right))]
fn packet_right(vocoder: Vocoder, numbers: GroupNumbers, n: usize, held: bool, p: Cells<'_>) -> bool
    requires { OfPacket (shape_of vocoder) p }
    ensures { result ≡ packet_right (voice_of vocoder) numbers.l numbers.b n held (as_bundle p.entry) }
{
    if held {
        n <= numbers.l as usize && bundle::frames_right(vocoder, numbers.b, p)
    } else {
        bundle::is_not_held(vocoder, p)
    }
}

// Whether packet n of a group of these numbers and parts keeps the rule.
#[tactic(auto, unfolding(crate::specs::Group::right_in))]
fn right_in(vocoder: Vocoder, numbers: GroupNumbers, n: usize, group: Group<'_>) -> bool
    requires { (n < packets_of (shape_of vocoder)) × Spanning (shape_of vocoder) group }
    ensures { result ≡ right_of (voice_of vocoder) numbers group.entry n }
{
    let p = packet_of(vocoder, group.cells, n);
    packet_right(vocoder, numbers, n, group.held[n], p)
}

// Whether every packet, held or not, keeps the rule there.
fn packets_right(vocoder: Vocoder, numbers: GroupNumbers, group: Group<'_>) -> bool
    requires { Spanning (shape_of vocoder) group }
    ensures { result ≡ all_below (right_of (voice_of vocoder) numbers group.entry) (packets_of (shape_of vocoder)) }
{
    (0..frame::packets_of(vocoder)).all(|n| right_in(vocoder, numbers, n, group))
}

// Whether a group of these numbers and parts keeps the rule of a holding. Its frames are EVRC, as yet of each.
#[tactic(auto, unfolding(crate::specs::Group::sound, frame::specs::Shape::shape_of))]
fn is_sound_in(numbers: GroupNumbers, group: Group<'_>) -> bool
    requires { Spanning holding_shape group }
    ensures { (source : ℕ) → result ≡ sound (voice_with (rows_of Vocoder.Evrc)) (group_of source numbers group.entry) }
{
    numbers.l <= 7 && (1..=10).contains(&numbers.b) && packets_right(Vocoder::Evrc, numbers, group)
}

// internal: for a holding whose parts lie apart.
// Whether it holds a packet. One that breaks the rule counts as holding none.
#[tactic(auto, unfolding(crate::specs::Group::holds))]
pub fn holds_packet_in(numbers: GroupNumbers, group: Group<'_>) -> bool
    requires { Spanning holding_shape group }
    ensures { (source : ℕ) → result ≡ holds (voice_with (rows_of Vocoder.Evrc)) (group_of source numbers group.entry) }
{
    is_sound_in(numbers, group) && octets::any(group.held)
}

// Whether h keeps the rule of a holding.
pub fn is_sound(h: Holding) -> bool
    ensures { result ≡ sound (voice_in h) h }
{
    is_sound_in(h.numbers, h.parts())
}

// Whether h holds a packet. One that breaks the rule counts as holding none.
pub fn holds_packet(h: Holding) -> bool
    ensures { result ≡ holds (voice_in h) h }
{
    holds_packet_in(h.numbers, h.parts())
}

// ---- what a host of two boxes asks

// A number with one bit more, the lowest.
fn with_bit(set: bool, bits: u8) -> u8
    requires { bits < 128 }
    ensures { result ≡ with_bit set bits }
{
    u8::from(set) + 2 * bits
}

// Flags as a number: bit N is 1 if flag N is set.
fn bits_of(set: &[bool]) -> u8
    requires { length set.now ≤ 8 }
    ensures { result ≡ bits_of set.now }
{
    let mut bits = 0;
    for n in (0..set.len()).rev() {
        bits = with_bit(set[n], bits);
    }
    bits
}

// What a holding is; 21 if it holds no packet.
#[tactic(auto, unfolding(crate::specs::Asked::described))]
pub fn read(h: Holding) -> Result<Described, Refusal>
    ensures { result ≡ described (voice_in h) h }
{
    if !holds_packet(h) {
        return Err(Refusal::NotApplicable);
    }
    Ok(Described {
        source: h.source,
        numbers: numbers_of(h),
        held: bits_of(&h.held),
    })
}

// The lost frames by what numbers decide of a group that comes after another.
#[tactic(auto, unfolding(crate::specs::Asked::lost_by))]
fn lost_by(verdict: Result<Verdict, Refusal>) -> Result<usize, Refusal>
    ensures { result ≡ lost_by verdict }
{
    match verdict? {
        Verdict::Begins(lost) => Ok(lost),
        Verdict::Belongs => Ok(0),
    }
}

// The lost frames between the group of one holding and that of a later one, as a session reports them that poured the first:
// 21 if either holds no packet, 10 if their sources differ, then 13, 24, 16.
#[tactic(auto, unfolding(crate::specs::Asked::lost_between))]
pub fn lost_between(before: Holding, after: Holding) -> Result<usize, Refusal>
    ensures { result ≡ lost_between (voice_in before) before after }
{
    if !holds_packet(before) || !holds_packet(after) {
        return Err(Refusal::NotApplicable);
    }
    if after.source != before.source {
        return Err(Refusal::AnotherSource);
    }
    lost_by(numbers::after_poured(numbers_of(before), numbers_of(after)))
}
