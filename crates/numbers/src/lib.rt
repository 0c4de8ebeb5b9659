// Numbers of groups (document 01, "Groups" and "Session"; document 02, (ii)): base numbers, and what numbers alone decide of the place of
// a packet.
#![tactic(auto)]

ghost use Rattle.std.specs.Prelude.{◌≡◌};
ghost use Rattle.numbers.specs.Bases.{base_sequence, base_timestamp};
ghost use Rattle.numbers.specs.Place.{differ, with_held, pause, after_pause, after_poured, decided};

use answers::Refusal;

// The numbers that the packets of a group share: base sequence number, base timestamp, L and B.
#[derive(Clone, Copy, Debug, Default, PartialEq, Eq)]
pub struct GroupNumbers {
    pub sequence: u16,
    pub timestamp: u32,
    pub l: u8,
    pub b: u8,
}

// The group that a packet comes after: none, the last one poured, or the one that is held.
#[derive(Clone, Copy, Debug, PartialEq, Eq)]
pub enum Before {
    Nothing,
    Poured(GroupNumbers),
    Held(GroupNumbers),
}

// What numbers decide of a packet that is not refused: it begins a group, with so many lost frames before it; or it belongs to the held
// group.
#[derive(Clone, Copy, Debug, PartialEq, Eq)]
pub enum Verdict {
    Begins(usize),
    Belongs,
}

// Sequence numbers and timestamps have two widths and two steps, 1 and 160: a function over both would take all three and be one line too.

// The base sequence number of packet n: sequence - n, counted modulo 65,536.
pub fn base_sequence(sequence: u16, n: u8) -> u16
    ensures { result ≡ base_sequence sequence n }
{
    sequence.wrapping_sub(n as u16)
}

// The base timestamp of packet n: timestamp - 160 x n, counted modulo 4,294,967,296.
pub fn base_timestamp(timestamp: u32, n: u8) -> u32
    ensures { result ≡ base_timestamp timestamp n }
{
    timestamp.wrapping_sub(160 * (n as u32))
}

// Whether L, B or base timestamp are others than those of the held group.
#[tactic(auto, unfolding(crate::specs::Place::differ))]
fn do_differ(held: GroupNumbers, new: GroupNumbers) -> bool
    ensures { result ≡ differ held new }
{
    new.l != held.l || new.b != held.b || new.timestamp != held.timestamp
}

// With a group held: the distance from its base decides.
#[tactic(auto, unfolding(crate::specs::Place::with_held, crate::specs::Place::at_distance))]
pub fn with_held(held: GroupNumbers, new: GroupNumbers) -> Result<Verdict, Refusal>
    ensures { result ≡ with_held held new }
{
    let distance = new.sequence.wrapping_sub(held.sequence);
    if distance == 0 {
        if do_differ(held, new) {
            return Err(Refusal::ContradictsGroup);
        }
        return Ok(Verdict::Belongs);
    }
    if distance <= held.l as u16 {
        return Err(Refusal::ContradictsGroup);
    }
    if distance <= 32767 {
        return Err(Refusal::LaterGroup);
    }
    Err(Refusal::EarlierGroup)
}

// The counts of the clock from the end of the poured group, 160 to a frame, to the beginning of the new one.
fn pause(poured: GroupNumbers, new: GroupNumbers) -> u32
    ensures { result ≡ pause poured new }
{
    let packets = poured.l as u32 + 1;
    let frames = packets * (poured.b as u32);
    new.timestamp
        .wrapping_sub(poured.timestamp.wrapping_add(160 * frames))
}

// After a pause of so many counts: whole frames, and a minute at most.
#[tactic(auto, unfolding(crate::specs::Place::after_pause))]
fn after_pause(counts: u32) -> Result<Verdict, Refusal>
    ensures { result ≡ after_pause counts }
{
    if counts % 160 != 0 {
        return Err(Refusal::OffTheClock);
    }
    let lost = counts / 160;
    if 3000 < lost {
        return Err(Refusal::TooFarAhead);
    }
    Ok(Verdict::Begins(lost as usize))
}

// With none held but one poured before: by its sequence number the packet may come too late; else the clock decides.
#[tactic(auto, unfolding(crate::specs::Place::after_poured))]
pub fn after_poured(poured: GroupNumbers, new: GroupNumbers) -> Result<Verdict, Refusal>
    ensures { result ≡ after_poured poured new }
{
    let length = poured.l as u16 + 1;
    let gap = new
        .sequence
        .wrapping_sub(poured.sequence.wrapping_add(length));
    if 32768 <= gap {
        return Err(Refusal::EarlierGroup);
    }
    after_pause(pause(poured, new))
}

// The place of a packet: with a group held, with one poured before, or with none before.
#[tactic(auto, unfolding(crate::specs::Place::decided))]
pub fn decide(group: Before, new: GroupNumbers) -> Result<Verdict, Refusal>
    ensures { result ≡ decided group new }
{
    match group {
        Before::Nothing => Ok(Verdict::Begins(0)),
        Before::Poured(poured) => after_poured(poured, new),
        Before::Held(held) => with_held(held, new),
    }
}
