// Captures (document 01, "Capture program"): the packets that a box heard, turned into a recording.
#![tactic(auto)]

ghost use Rattle.std.specs.Prelude.{◌≡◌, true, List, ◌+◌, ◌*◌, ◌<◌, ◌≤◌, length, replicate, leb};
ghost use Rattle.frame.specs.FrameTable.{Frame};
ghost use Rattle.frame.specs.Shape.{holding_shape, voice_with};
ghost use Rattle.frame.specs.Places.{up_to};
ghost use Rattle.entries.specs.Entries.{entries_of};
ghost use Rattle.holding.specs.Group.{OfGroup, nothing};
ghost use Rattle.pouring.specs.Pouring.{rows, rows_size};
ghost use Rattle.session.specs.declared.Session.{Session};
ghost use Rattle.session.specs.Session.{fresh};
ghost use Rattle.session.specs.Standing.{whole, Stands, decided_as};
ghost use Rattle.capture.specs.Capture.{count_of, length_at, lengths, start_at, as_heard, heard_at, packets_in, end_fault, fault_of, good};
ghost use Rattle.capture.specs.Run.{capture_form, capture_kind, first_session, offered_to, lost_in, largest, offering, is_twelve, pouring, answered_by, step_of, run_of};
ghost use Rattle.capture.specs.Run.{capture_recording, Put, Does, record_answer, record_output, packet_answered, answer_of};
ghost use Rattle.capture.specs.Going.{run_in, DecidesOf};
ghost use Rattle.capture.specs.declared.CaptureError.TheVariants.{Refused};
ghost use Rattle.capture.specs.Weighing.{Measured, Measures, Weighs};

use answers::Refusal;
use bundle::Cells;
use form::{Form, Limits};
use frame::Vocoder;
use session::{Decision, Standing};

// The most octets that the recording of a capture can have.
pub const LARGEST: usize = 841807;

// Zeros, as many as the largest recording has octets: room for the recording of any capture.
pub fn room() -> [u8; LARGEST]
    ensures { result ≡ replicate largest 0 }
{
    [0; LARGEST]
}

// The entry of an erasure.
const ERASURE: u8 = 0x0E;

// Why a call on a capture is refused: it is a bad one; or the refusal.
#[derive(Clone, Copy, Debug, PartialEq, Eq)]
pub enum CaptureError {
    BadCapture,
    Refused(Refusal),
}

impl From<Refusal> for CaptureError {
    ghost from_gives = { λ r e. e ≡ Refused r };

    // A refusal, in a call that may also be given a bad capture.
    fn from(reason: Refusal) -> CaptureError {
        CaptureError::Refused(reason)
    }
}

// A packet of a capture, its payload in the capture's own octets.
#[derive(Clone, Copy)]
pub struct Packet<'a> {
    pub source: u32,
    pub sequence: u16,
    pub timestamp: u32,
    pub payload: &'a [u8],
}

// A run in place: all of its session but the types and the bodies of its group, which lie in arrays beside it, and the octets
// recorded so far. A measuring run has no such arrays, and counts the octets of the held group too.
#[derive(Clone, Copy)]
pub struct Going {
    pub standing: Standing,
    pub octets: usize,
}

// The octets of the first n payloads.
fn payload_octets(capture: &[u8], n: usize) -> usize
    requires { (2 + 12 * n ≤ length capture.now) × (n ≤ 256) }
    ensures { (result ≡ lengths capture.now n) × (result ≤ 65535 * n) }
{
    (0..n)
        .map(|i| usize::from(octets::two(capture, 2 + 12 * i + 10)))
        .sum()
}

// Why octets are no capture, in the order that it is judged; each case carries what a person needs to see it.
#[derive(Clone, Copy, Debug, PartialEq, Eq)]
pub enum Fault {
    // More than 65,536 octets.
    TooLong,
    // Not the two octets of a count.
    NoCount,
    // This count, over 256.
    TooManyPackets(usize),
    // The table needs so many octets, and there are fewer.
    TableCut(usize),
    // The table and the payloads need so many octets, and there are fewer.
    PayloadsCut(usize),
    // The last payload ends here, and octets are left over.
    OctetsLeft(usize),
}

// Where the last payload ends, so many octets end too, or are cut, or are left over.
#[tactic(auto, unfolding(crate::specs::Capture::end_fault))]
fn end_fault(end: usize, octets: usize) -> Result<(), Fault>
    ensures { result ≡ end_fault end octets }
{
    if octets < end {
        return Err(Fault::PayloadsCut(end));
    }
    if end < octets {
        return Err(Fault::OctetsLeft(end));
    }
    Ok(())
}

// Why these octets are no capture, if they are none.
#[tactic(auto, unfolding(crate::specs::Capture::fault_of, crate::specs::Capture::count_fault, crate::specs::Capture::table_fault, crate::specs::Capture::start_at))]
pub fn judge(capture: &[u8]) -> Result<(), Fault>
    ensures { result ≡ fault_of capture.now }
{
    if 65536 < capture.len() {
        return Err(Fault::TooLong);
    }
    if capture.len() < 2 {
        return Err(Fault::NoCount);
    }
    let count = octets::two(capture, 0) as usize;
    if 256 < count {
        return Err(Fault::TooManyPackets(count));
    }
    let table = 2 + 12 * count;
    if capture.len() < table {
        return Err(Fault::TableCut(table));
    }
    end_fault(table + payload_octets(capture, count), capture.len())
}

// Whether these octets are a capture.
#[tactic(auto, unfolding(crate::specs::Capture::good))]
fn is_good(capture: &[u8]) -> bool
    ensures { result ≡ good capture.now }
{
    judge(capture).is_ok()
}

// Packet i, whose payload begins at start.
#[tactic(auto, unfolding(crate::specs::Capture::heard_at))]
fn packet_at(capture: &[u8], i: usize, start: usize) -> Packet<'_>
    requires { (2 + 12 * (i + 1) ≤ length capture.now)
        × (start ≡ start_at capture.now i)
        × (start + length_at capture.now i ≤ length capture.now) }
    ensures { as_heard result ≡ heard_at capture.now i }
{
    let row = 2 + 12 * i;
    let size = octets::two(capture, row + 10) as usize;
    Packet {
        source: octets::four(capture, row),
        sequence: octets::two(capture, row + 4),
        timestamp: octets::four(capture, row + 6),
        payload: &capture[start..start + size],
    }
}

// What is decided of a packet.
fn decide_packet(standing: Standing, packet: Packet<'_>) -> Result<Decision, Refusal>
    ensures { DecidesOf standing (as_heard packet.entry) result }
{
    session::decide(
        standing,
        packet.source,
        packet.sequence,
        packet.timestamp,
        packet.payload,
    )
}

// Writes the entries of the first b frames of m packets over out from index at on, if they fit there.
fn put_rows(cells: Cells<'_>, m: usize, b: usize, size: usize, out: &mut [u8], at: usize)
    requires { OfGroup holding_shape cells
        × (m ≤ 8)
        × (b ≤ 10)
        × (size ≡ rows_size capture_kind.table cells.marks.now m b) }
    ensures { Put out.old at (entries_of (rows (voice_with capture_kind.table) cells.entry.marks.now cells.entry.room.now m b)) out.new }
{
    if at <= out.len() && size <= out.len() - at {
        pouring::pour_rows(Vocoder::Evrc, cells, m, b, &mut out[at..]);
    }
}

// Writes an erasure for each lost frame over out from index at on, if they fit there.
fn put_lost(out: &mut [u8], at: usize, lost: usize)
    ensures { Put out.old at (replicate lost capture_kind.erasure) out.new }
{
    if at <= out.len() && lost <= out.len() - at {
        octets::fill(out, at, lost, ERASURE);
    }
}

// Empties the types and the bodies: every place reads as an erasure, and all room is zero.
#[tactic(auto, unfolding(holding::specs::Group::nothing, holding::specs::Group::begun))]
fn clear(marks: &mut [u8], room: &mut [u8])
    requires { (length marks.old ≡ 80) × (length room.old ≡ 1760) }
    ensures { (marks.new ≡ (nothing holding_shape).marks) × (room.new ≡ (nothing holding_shape).room) }
{
    octets::fill(marks, 0, 80, ERASURE);
    octets::fill(room, 0, 1760, 0);
}

// Pours the group of the run's session, if there is one.
fn pour_group(going: &mut Going, marks: &mut [u8], room: &mut [u8], out: &mut [u8])
    requires { Stands going.old.standing marks.old room.old × (going.old.octets ≤ largest) }
    ensures { Does (pouring capture_kind.table (whole going.old.standing marks.old room.old)) going.old.octets out.old (run_in going.new marks.new room.new) out.new }
{
    let numbers = going.standing.numbers;
    if numbers.b == 0 {
        return;
    }
    let m = numbers.l as usize + 1;
    let b = numbers.b as usize;
    let size = pouring::pour_size(Vocoder::Evrc, marks, m, b);
    put_rows(Cells { marks, room }, m, b, size, out, going.octets);
    clear(marks, room);
    going.standing = session::end_group(going.standing);
    going.octets += size;
}

// Takes a packet as it was decided: lost frames are recorded as erasures, and a refusal leaves the run as it was.
fn take_packet(
    going: &mut Going,
    decision: Result<Decision, Refusal>,
    packet: Packet<'_>,
    marks: &mut [u8],
    room: &mut [u8],
    out: &mut [u8],
) -> Result<usize, Refusal>
    requires { (going.old.octets ≤ 2 * largest)
        × Stands going.old.standing marks.old room.old
        × DecidesOf going.old.standing (as_heard packet) decision }
    ensures { Does (offering capture_kind (whole going.old.standing marks.old room.old) (as_heard packet.entry)) going.old.octets out.old (run_in going.new marks.new room.new) out.new
        × (result ≡ (offered_to capture_kind.table (whole going.old.standing marks.old room.old) (as_heard packet.entry)).answer) }
{
    let lost = session::take(&mut going.standing, decision, packet.payload, marks, room)?;
    put_lost(out, going.octets, lost);
    going.octets += lost;
    Ok(lost)
}

// Whether a decision is a refusal with 12.
#[tactic(auto, unfolding(session::specs::Standing::decided_as, session::specs::Session::begins, session::specs::Session::accept, session::specs::Session::refuse, crate::specs::Run::is_twelve))]
fn is_later(decision: Result<Decision, Refusal>) -> bool
    ensures { (s : Session) (fs : List Frame) → result ≡ is_twelve (decided_as s fs decision).answer }
{
    match decision {
        Err(Refusal::LaterGroup) => true,
        _ => false,
    }
}

// Offers a packet: on 12 the group is poured and the packet decided again. What the packet is answered.
fn step(
    going: &mut Going,
    packet: Packet<'_>,
    marks: &mut [u8],
    room: &mut [u8],
    out: &mut [u8],
) -> Result<usize, Refusal>
    requires { (going.old.octets ≤ largest) × Stands going.old.standing marks.old room.old }
    ensures { Does (step_of capture_kind (whole going.old.standing marks.old room.old) (as_heard packet.entry)) going.old.octets out.old (run_in going.new marks.new room.new) out.new
        × (result ≡ answered_by capture_kind (whole going.old.standing marks.old room.old) (as_heard packet.entry)) }
{
    let decision = decide_packet(going.standing, packet);
    if is_later(decision) {
        pour_group(going, marks, room, out);
        let again = decide_packet(going.standing, packet);
        return take_packet(going, again, packet, marks, room, out);
    }
    take_packet(going, decision, packet, marks, room, out)
}

// The session that a capture with a packet is offered to, for the first one's source: all but its types and bodies.
#[tactic(auto, unfolding(crate::specs::Capture::heard_at, crate::specs::Run::capture_form))]
fn first_standing(capture: &[u8]) -> Standing
    requires { 14 ≤ length capture.now }
    ensures { whole result (nothing holding_shape).marks (nothing holding_shape).room ≡ fresh holding_shape (heard_at capture.now 0).source capture_form }
{
    let form = Form::Interleaved(Limits {
        max_l: 7,
        max_b: 10,
    });
    session::fresh(octets::four(capture, 2), form)
}

// The run over the first n packets.
fn run_packets(
    going: &mut Going,
    capture: &[u8],
    count: usize,
    n: usize,
    marks: &mut [u8],
    room: &mut [u8],
    out: &mut [u8],
)
    requires { (good capture.now ≡ true)
        × (count ≡ count_of capture.now)
        × (n ≤ count)
        × (going.old.octets ≡ 7)
        × (whole going.old.standing marks.old room.old ≡ first_session (packets_in capture.now))
        × Stands going.old.standing marks.old room.old }
    ensures { Does (run_of capture_kind (whole going.old.standing marks.old room.old) (up_to (heard_at capture.now) n)) going.old.octets out.old (run_in going.new marks.new room.new) out.new
        × Stands going.new.standing marks.new room.new }
{
    let mut start = 2 + 12 * count;
    for i in 0..n {
        let packet = packet_at(capture, i, start);
        start += packet.payload.len();
        let _answered = step(going, packet, marks, room, out);
    }
}

// Runs over a good capture and gives the octets of its recording, which is written over out if it fits there.
fn run_capture(capture: &[u8], out: &mut [u8]) -> usize
    requires { good capture.now ≡ true }
    ensures { (result ≡ length (capture_recording capture_kind capture.now))
        × Put out.old 0 (capture_recording capture_kind capture.now) out.new }
{
    let count = octets::two(capture, 0) as usize;
    let _opened = recording::write(Vocoder::Evrc, &capture[..0], out);
    if count == 0 {
        return 7;
    }
    let mut marks = [ERASURE; 80];
    let mut room = [0u8; 1760];
    let mut going = Going {
        standing: first_standing(capture),
        octets: 7,
    };
    run_packets(
        &mut going, capture, count, count, &mut marks, &mut room, out,
    );
    pour_group(&mut going, &mut marks, &mut room, out);
    going.octets
}

// The run that measures, after a packet was taken as it was decided. No frame is copied: a packet that is put in brings the octets of
// its bodies, one that begins a group its lost frames and an octet for each place besides.
fn weigh(going: Going, decision: Result<Decision, Refusal>, packet: Packet<'_>) -> Going
    requires { (going.octets ≤ largest) × Measures going × DecidesOf going.standing (as_heard packet) decision }
    ensures { Weighs (λ s. offering capture_kind s (as_heard packet.entry)) going result }
{
    let Ok(decision) = decision else {
        return going;
    };
    let standing = going.standing;
    let size = packet.payload.len();
    match decision {
        Decision::Begins { numbers, n, lost } => {
            let places = (numbers.l as usize + 1) * numbers.b as usize;
            let bodies = size - 1 - numbers.b as usize;
            Going {
                standing: session::begin_group(standing, numbers, n),
                octets: going.octets + lost + places + bodies,
            }
        }
        Decision::PutIn { n } => {
            let bodies = size - 1 - standing.numbers.b as usize;
            Going {
                standing: session::hold_packet(standing, n),
                octets: going.octets + bodies,
            }
        }
        Decision::Again { n: _ } => going,
    }
}

// The run that measures, after a packet: on 12 the group is ended, whose octets are counted already, and the packet decided again.
fn weigh_packet(going: Going, packet: Packet<'_>) -> Going
    requires { (going.octets ≤ largest) × Measures going }
    ensures { Weighs (λ s. step_of capture_kind s (as_heard packet.entry)) going result }
{
    let decision = decide_packet(going.standing, packet);
    if is_later(decision) {
        let standing = session::end_group(going.standing);
        let again = decide_packet(standing, packet);
        return weigh(Going { standing, ..going }, again, packet);
    }
    weigh(going, decision, packet)
}

// The run that measures, over all packets.
fn weigh_packets(begun: Going, capture: &[u8], count: usize) -> Going
    requires { (good capture.now ≡ true)
        × (count ≡ count_of capture.now)
        × Measured (first_session (packets_in capture.now)) 7 begun }
    ensures { result.octets ≡ length (capture_recording capture_kind capture.now) }
{
    let mut going = begun;
    let mut start = 2 + 12 * count;
    for i in 0..count {
        let packet = packet_at(capture, i, start);
        start += packet.payload.len();
        going = weigh_packet(going, packet);
    }
    going
}

// The octets of the recording of a good capture, whose opening has 7: counted, and nothing is copied.
fn measure(capture: &[u8]) -> usize
    requires { good capture.now ≡ true }
    ensures { result ≡ length (capture_recording capture_kind capture.now) }
{
    let count = octets::two(capture, 0) as usize;
    if count == 0 {
        return 7;
    }
    let begun = Going {
        standing: first_standing(capture),
        octets: 7,
    };
    weigh_packets(begun, capture, count).octets
}

// Whether the recording of a good capture fits into so many octets. Where any does, nothing is measured.
fn fits(capture: &[u8], room: usize) -> bool
    requires { good capture.now ≡ true }
    ensures { result ≡ leb (length (capture_recording capture_kind capture.now)) room }
{
    LARGEST <= room || measure(capture) <= room
}

// Turns a capture into a recording, written to out, and answers its octets. The whole is judged before an octet is written.
#[tactic(auto, unfolding(crate::specs::Run::record_answer, crate::specs::Run::record_output, answers::specs::Outputs::written_of, answers::specs::Outputs::out_after))]
pub fn record(capture: &[u8], out: &mut [u8]) -> Result<usize, CaptureError>
    ensures { (result ≡ record_answer capture_kind capture.now out.old)
        × (out.new ≡ record_output capture_kind capture.now out.old) }
{
    if !is_good(capture) {
        return Err(CaptureError::BadCapture);
    }
    if !fits(capture, out.len()) {
        return Err(CaptureError::Refused(Refusal::NoRoom));
    }
    Ok(run_capture(capture, out))
}

// What packet i of a good capture is answered: the run over the packets before it, with no room, and then its own offer.
fn answer_in(capture: &[u8], count: usize, i: usize) -> Result<usize, Refusal>
    requires { (good capture.now ≡ true) × (count ≡ count_of capture.now) × (i < count) }
    ensures { result ≡ packet_answered capture_kind (packets_in capture.now) i }
{
    let mut none = [0u8; 0];
    let mut marks = [ERASURE; 80];
    let mut room = [0u8; 1760];
    let mut going = Going {
        standing: first_standing(capture),
        octets: 7,
    };
    run_packets(
        &mut going, capture, count, i, &mut marks, &mut room, &mut none,
    );
    let start = 2 + 12 * count + payload_octets(capture, i);
    let packet = packet_at(capture, i, start);
    step(&mut going, packet, &mut marks, &mut room, &mut none)
}

// What packet i of a capture was answered in the run that `record` makes, the lost frames before it or the refusal: 21 where there is no
// packet i.
#[tactic(auto, unfolding(crate::specs::Run::answer_of))]
pub fn answer(capture: &[u8], i: usize) -> Result<usize, CaptureError>
    ensures { result ≡ answer_of capture_kind capture.now i }
{
    if !is_good(capture) {
        return Err(CaptureError::BadCapture);
    }
    let count = octets::two(capture, 0) as usize;
    if count <= i {
        return Err(CaptureError::Refused(Refusal::NotApplicable));
    }
    Ok(answer_in(capture, count, i)?)
}
