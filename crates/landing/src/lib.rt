// The calls for a host in C (include/landing_voice.h): numbers and byte slices in, 0 or a refusal's number out.
#![tactic(auto)]

ghost use Rattle.std.specs.Prelude.{◌≡◌};
ghost use Rattle.answers.specs.Answers.{number_of, place_of};
ghost use Rattle.answers.specs.Outputs.{Writes, written_of};
ghost use Rattle.entries.specs.Counting.{counted_of};
ghost use Rattle.entries.specs.Kind.{kind_of};
ghost use Rattle.frame.specs.Places.{located_of};
ghost use Rattle.lending.specs.Laid.{session_voice, holding_voice};
ghost use Rattle.capture.specs.Run.{capture_kind, answer_of};
ghost use Rattle.lending.specs.Calls.{offer_answer, offer_octets, pour_of, pour_octets, copy_answer, copy_octets, end_answer, end_octets};
ghost use Rattle.lending.specs.Calls.{join_answer, join_octets, pour_held, drop_answer, drop_octets, read_held, lost_of};
ghost use Rattle.payload.specs.Shown.{contents_of};
ghost use Rattle.recording.specs.Recording.{recording_read, recording_made};
ghost use Rattle.recording.specs.Shown.{given_in};
ghost use Rattle.landing.specs.Host.{fault_place, capture_place, place_after};
ghost use Rattle.landing.specs.Host.{named_form, read_named, given_named, packet_told, packet_after, frame_told, frame_after};
ghost use Rattle.landing.specs.Host.{count_told, count_after, write_told, write_after, packet_named};
ghost use Rattle.landing.specs.Host.{header_free_named, capture_after, record_after, answer_number, open_named};
ghost use Rattle.landing.specs.Host.{opened_named, holding_told, holding_after};

use answers::Refusal;
use capture::CaptureError;
use form::{Form, Limits};
use frame::{Located, Vocoder};
use payload::Contents;

// The C interface hands in numbers, for a form and its maxima too, and out-parameters one by one.

// The agreed form that a host's numbers name, or none: 21.
#[tactic(auto, unfolding(crate::specs::Host::named_form))]
fn form_named(form: u8, max_l: u8, max_b: u8) -> Result<Form, Refusal>
    ensures { result ≡ named_form form max_l max_b }
{
    match form {
        0 => Ok(Form::HeaderFree),
        1 => Ok(Form::Interleaved(Limits { max_l, max_b })),
        _ => Err(Refusal::NotApplicable),
    }
}

// Tells a host of a refusal: its number, and its place where it has one.
#[tactic(auto, unfolding(crate::specs::Host::place_after))]
fn tell_refusal(reason: Refusal, place: &mut usize) -> u8
    ensures { (result ≡ number_of reason) × (place.new ≡ place_after (place_of reason) place.old) }
{
    if let Some(at) = reason.place() {
        *place = at;
    }
    reason.number()
}

// A payload read in the form that is named; 21 if none is.
#[tactic(auto, unfolding(crate::specs::Host::read_named, payload::specs::Shown::contents_of))]
fn read_named(form: u8, max_l: u8, max_b: u8, payload: &[u8]) -> Result<Contents, Refusal>
    ensures { result ≡ contents_of (read_named (named_form form max_l max_b) payload.now) }
{
    payload::read(form_named(form, max_l, max_b)?, payload)
}

// Frame k of a payload in the form that is named; 21 if none is.
#[tactic(auto, unfolding(crate::specs::Host::given_named, frame::specs::Places::located_of))]
fn locate_named(
    form: u8,
    max_l: u8,
    max_b: u8,
    payload: &[u8],
    k: usize,
) -> Result<Located, Refusal>
    ensures { result ≡ located_of (given_named (named_form form max_l max_b) payload.now) k }
{
    payload::locate(form_named(form, max_l, max_b)?, payload, k)
}

// Reads a payload: 0 and its L, N, B and D; or the refusal's number, and nothing written but its place.
#[tactic(auto, unfolding(crate::specs::Host::packet_after, crate::specs::Host::fault_place, crate::specs::Host::place_after))]
pub fn lv_payload_read(
    form: u8,
    max_l: u8,
    max_b: u8,
    payload: &[u8],
    l: &mut u8,
    n: &mut u8,
    b: &mut u8,
    d: &mut u8,
    place: &mut usize,
) -> u8
    ensures { (packet_told result l.new n.new b.new d.new
        ≡ packet_after (contents_of (read_named (named_form form max_l max_b) payload.now)) l.old n.old b.old d.old)
        × (place.new
        ≡ place_after (fault_place (contents_of (read_named (named_form form max_l max_b) payload.now))) place.old) }
{
    match read_named(form, max_l, max_b, payload) {
        Err(reason) => tell_refusal(reason, place),
        Ok(packet) => {
            *l = packet.l;
            *n = packet.n;
            *b = packet.b;
            *d = packet.d;
            0
        }
    }
}

// Tells a host where a frame lies: 0, and its type, start and size; or the refusal's number, and nothing written but its place.
#[tactic(auto, unfolding(crate::specs::Host::frame_after, crate::specs::Host::fault_place, crate::specs::Host::place_after))]
fn tell_frame(
    frame: Result<Located, Refusal>,
    kind: &mut u8,
    start: &mut usize,
    size: &mut usize,
    place: &mut usize,
) -> u8
    ensures { (frame_told result kind.new start.new size.new
        ≡ frame_after frame kind.old start.old size.old)
        × (place.new ≡ place_after (fault_place frame) place.old) }
{
    match frame {
        Err(reason) => tell_refusal(reason, place),
        Ok(at) => {
            *kind = at.kind;
            *start = at.start;
            *size = at.size;
            0
        }
    }
}

// Frame k of a payload: its type, and its body's start and size in the payload.
pub fn lv_payload_frame(
    form: u8,
    max_l: u8,
    max_b: u8,
    payload: &[u8],
    k: usize,
    kind: &mut u8,
    start: &mut usize,
    size: &mut usize,
    place: &mut usize,
) -> u8
    ensures { (frame_told result kind.new start.new size.new
        ≡ frame_after (located_of (given_named (named_form form max_l max_b) payload.now) k) kind.old start.old size.old)
        × (place.new
        ≡ place_after (fault_place (located_of (given_named (named_form form max_l max_b) payload.now) k)) place.old) }
{
    tell_frame(
        locate_named(form, max_l, max_b, payload, k),
        kind,
        start,
        size,
        place,
    )
}

// Tells a host a count, of frames, of octets written or of lost frames: 0 and the count; or the refusal's number, and nothing written.
#[tactic(auto, unfolding(crate::specs::Host::count_after))]
fn tell_count(found: Result<usize, Refusal>, count: &mut usize) -> u8
    ensures { count_told result count.new ≡ count_after found count.old }
{
    match found {
        Err(reason) => reason.number(),
        Ok(n) => {
            *count = n;
            0
        }
    }
}

// The same of a call whose refusal may have a place.
#[tactic(auto, unfolding(crate::specs::Host::fault_place, crate::specs::Host::count_after, crate::specs::Host::place_after))]
fn tell_count_at(found: Result<usize, Refusal>, count: &mut usize, place: &mut usize) -> u8
    ensures { (count_told result count.new ≡ count_after found count.old)
        × (place.new ≡ place_after (fault_place found) place.old) }
{
    if let Err(reason) = found {
        return tell_refusal(reason, place);
    }
    tell_count(found, count)
}

// Reads a recording: 0 and its frame count; or the refusal's number, and nothing written but its place.
#[tactic(auto, unfolding(crate::specs::Host::count_after, crate::specs::Host::fault_place))]
pub fn lv_recording_read(recording: &[u8], count: &mut usize, place: &mut usize) -> u8
    ensures { (count_told result count.new
        ≡ count_after (counted_of (recording_read (kind_of Vocoder.Evrc) recording.now)) count.old)
        × (place.new
        ≡ place_after (fault_place (counted_of (recording_read (kind_of Vocoder.Evrc) recording.now))) place.old) }
{
    tell_count_at(recording::read(Vocoder::Evrc, recording), count, place)
}

// Frame k of a recording: its type, and its body's start and size in the recording.
pub fn lv_recording_frame(
    recording: &[u8],
    k: usize,
    kind: &mut u8,
    start: &mut usize,
    size: &mut usize,
    place: &mut usize,
) -> u8
    ensures { (frame_told result kind.new start.new size.new
        ≡ frame_after (located_of (given_in (kind_of Vocoder.Evrc) recording.now) k) kind.old start.old size.old)
        × (place.new
        ≡ place_after (fault_place (located_of (given_in (kind_of Vocoder.Evrc) recording.now) k)) place.old) }
{
    let frame = recording::locate(Vocoder::Evrc, recording, k);
    tell_frame(frame, kind, start, size, place)
}

// Writes a recording of entries.
#[tactic(auto, unfolding(crate::specs::Host::write_after, crate::specs::Host::count_after, crate::specs::Host::fault_place))]
pub fn lv_recording_write(
    entries: &[u8],
    out: &mut [u8],
    written: &mut usize,
    place: &mut usize,
) -> u8
    ensures { (write_told result written.new out.new
        ≡ write_after (recording_made (kind_of Vocoder.Evrc) entries.now) written.old out.old)
        × (place.new
        ≡ place_after (fault_place (written_of (recording_made (kind_of Vocoder.Evrc) entries.now) out.old)) place.old) }
{
    tell_count_at(
        recording::write(Vocoder::Evrc, entries, out),
        written,
        place,
    )
}

// Packet N written in the form that is named; 21 if none is.
#[tactic(auto, unfolding(crate::specs::Host::packet_named))]
fn packet_named(
    form: u8,
    max_l: u8,
    max_b: u8,
    l: u8,
    n: u8,
    b: u8,
    d: u8,
    entries: &[u8],
    out: &mut [u8],
) -> Result<usize, Refusal>
    ensures { Writes (packet_named (named_form form max_l max_b) l n b d entries.now) out.old result out.new }
{
    packet::write(form_named(form, max_l, max_b)?, l, n, b, d, entries, out)
}

// Writes packet n of an interleave group.
#[tactic(auto, unfolding(crate::specs::Host::write_after, crate::specs::Host::count_after, crate::specs::Host::fault_place))]
pub fn lv_packet_write(
    form: u8,
    max_l: u8,
    max_b: u8,
    l: u8,
    n: u8,
    b: u8,
    d: u8,
    entries: &[u8],
    out: &mut [u8],
    written: &mut usize,
    place: &mut usize,
) -> u8
    ensures { (write_told result written.new out.new
        ≡ write_after (packet_named (named_form form max_l max_b) l n b d entries.now) written.old out.old)
        × (place.new
        ≡ place_after (fault_place (written_of (packet_named (named_form form max_l max_b) l n b d entries.now) out.old)) place.old) }
{
    tell_count_at(
        packet_named(form, max_l, max_b, l, n, b, d, entries, out),
        written,
        place,
    )
}

// A header-free packet written in the form that is named; 21 if none is.
#[tactic(auto, unfolding(crate::specs::Host::header_free_named))]
fn header_free_named(
    form: u8,
    max_l: u8,
    max_b: u8,
    entries: &[u8],
    out: &mut [u8],
) -> Result<usize, Refusal>
    ensures { Writes (header_free_named (named_form form max_l max_b) entries.now) out.old result out.new }
{
    packet::write_header_free(form_named(form, max_l, max_b)?, entries, out)
}

// Writes a header-free packet.
#[tactic(auto, unfolding(crate::specs::Host::write_after, crate::specs::Host::count_after, crate::specs::Host::fault_place))]
pub fn lv_packet_write_header_free(
    form: u8,
    max_l: u8,
    max_b: u8,
    entries: &[u8],
    out: &mut [u8],
    written: &mut usize,
    place: &mut usize,
) -> u8
    ensures { (write_told result written.new out.new
        ≡ write_after (header_free_named (named_form form max_l max_b) entries.now) written.old out.old)
        × (place.new
        ≡ place_after (fault_place (written_of (header_free_named (named_form form max_l max_b) entries.now) out.old)) place.old) }
{
    tell_count_at(
        header_free_named(form, max_l, max_b, entries, out),
        written,
        place,
    )
}

// What a call on a capture answers, as a number: 0 and its count, the number of a refusal, or 255.
#[tactic(auto, unfolding(crate::specs::Host::capture_after))]
fn tell_capture(found: Result<usize, CaptureError>, count: &mut usize) -> u8
    ensures { count_told result count.new ≡ capture_after found count.old }
{
    match found {
        Err(CaptureError::BadCapture) => 255,
        Err(CaptureError::Refused(reason)) => reason.number(),
        Ok(n) => {
            *count = n;
            0
        }
    }
}

// Turns a capture into a recording; 255 for a bad capture.
#[tactic(auto, unfolding(crate::specs::Host::record_after, crate::specs::Host::capture_after))]
pub fn lv_capture_record(capture: &[u8], out: &mut [u8], written: &mut usize) -> u8
    ensures { write_told result written.new out.new
        ≡ record_after capture_kind capture.now written.old out.old }
{
    tell_capture(capture::record(capture, out), written)
}

// ---- sessions and holdings, in octets that the host lends

// An answer as a number: 0, or the number of the refusal.
#[tactic(auto, unfolding(crate::specs::Host::answer_number))]
fn tell(answer: Result<(), Refusal>) -> u8
    ensures { result ≡ answer_number answer }
{
    match answer {
        Ok(()) => 0,
        Err(reason) => reason.number(),
    }
}

// What packet i of a capture was answered in the run that lv_capture_record makes; 255 for a bad capture, 21 where there is none.
#[tactic(auto, unfolding(crate::specs::Host::capture_after, crate::specs::Host::capture_place, crate::specs::Host::place_after))]
pub fn lv_capture_answer(capture: &[u8], i: usize, lost: &mut usize, place: &mut usize) -> u8
    ensures { (count_told result lost.new ≡ capture_after (answer_of capture_kind capture.now i) lost.old)
        × (place.new ≡ place_after (capture_place (answer_of capture_kind capture.now i)) place.old) }
{
    let found = capture::answer(capture, i);
    if let Err(CaptureError::Refused(reason)) = found {
        return tell_refusal(reason, place);
    }
    tell_capture(found, lost)
}

// A lent session opened in the form that is named: 21 for no form, before 15 for too few octets.
#[tactic(auto, unfolding(crate::specs::Host::open_named, crate::specs::Host::opened_named))]
fn open_named(
    source: u32,
    form: u8,
    max_l: u8,
    max_b: u8,
    session: &mut [u8],
) -> Result<(), Refusal>
    ensures { (result ≡ open_named (named_form form max_l max_b) source session.old)
        × (session.new ≡ opened_named (named_form form max_l max_b) source session.old) }
{
    lending::open(session, source, form_named(form, max_l, max_b)?)
}

// Opens a session.
pub fn lv_session_open(source: u32, form: u8, max_l: u8, max_b: u8, session: &mut [u8]) -> u8
    ensures { (result ≡ answer_number (open_named (named_form form max_l max_b) source session.old))
        × (session.new ≡ opened_named (named_form form max_l max_b) source session.old) }
{
    tell(open_named(source, form, max_l, max_b, session))
}

// Offers a packet to a session.
#[tactic(auto, unfolding(crate::specs::Host::count_after, crate::specs::Host::fault_place))]
pub fn lv_session_offer(
    session: &mut [u8],
    source: u32,
    sequence: u16,
    timestamp: u32,
    payload: &[u8],
    lost: &mut usize,
    place: &mut usize,
) -> u8
    ensures { (count_told result lost.new
        ≡ count_after (offer_answer (session_voice session.old) session.old source sequence timestamp payload.now) lost.old)
        × (place.new
        ≡ place_after (fault_place (offer_answer (session_voice session.old) session.old source sequence timestamp payload.now)) place.old)
        × (session.new ≡ offer_octets (session_voice session.old) session.old source sequence timestamp payload.now) }
{
    tell_count_at(
        lending::offer(session, source, sequence, timestamp, payload),
        lost,
        place,
    )
}

// Pours the held group of a session, and ends it.
#[tactic(auto, unfolding(crate::specs::Host::write_after, crate::specs::Host::count_after))]
pub fn lv_session_pour(session: &mut [u8], out: &mut [u8], written: &mut usize) -> u8
    ensures { (write_told result written.new out.new
        ≡ write_after (pour_of (session_voice session.old) session.old) written.old out.old)
        × (session.new
        ≡ pour_octets session.old (written_of (pour_of (session_voice session.old) session.old) out.old)) }
{
    tell_count(lending::pour(session, out), written)
}

// Copies the held group of a session out.
pub fn lv_session_copy(session: &[u8], holding: &mut [u8]) -> u8
    ensures { (result ≡ answer_number (copy_answer (session_voice session.now) session.now holding.old))
        × (holding.new ≡ copy_octets (session_voice session.now) session.now holding.old) }
{
    tell(lending::copy_out(session, holding))
}

// Ends the held group of a session as pouring does, and writes nothing.
pub fn lv_session_drop(session: &mut [u8]) -> u8
    ensures { (result ≡ answer_number (drop_answer (session_voice session.old) session.old))
        × (session.new ≡ drop_octets (session_voice session.old) session.old) }
{
    tell(lending::drop_group(session))
}

// Ends a session.
pub fn lv_session_end(session: &mut [u8]) -> u8
    ensures { (result ≡ answer_number (end_answer session.old))
        × (session.new ≡ end_octets session.old) }
{
    tell(lending::end(session))
}

// Joins two holdings.
pub fn lv_holding_join(a: &[u8], b: &[u8], out: &mut [u8]) -> u8
    ensures { (result ≡ answer_number (join_answer (holding_voice a.now) a.now b.now out.old))
        × (out.new ≡ join_octets (holding_voice a.now) a.now b.now out.old) }
{
    tell(lending::join(a, b, out))
}

// Pours a holding.
#[tactic(auto, unfolding(crate::specs::Host::write_after, crate::specs::Host::count_after))]
pub fn lv_holding_pour(holding: &[u8], out: &mut [u8], written: &mut usize) -> u8
    ensures { write_told result written.new out.new
        ≡ write_after (pour_held (holding_voice holding.now) holding.now) written.old out.old }
{
    tell_count(lending::pour_holding(holding, out), written)
}

// What a holding is: 0, and its source, base numbers, L, B and which packets it holds, bit N for packet N; or the refusal's number,
// and nothing written.
#[tactic(auto, unfolding(crate::specs::Host::holding_after))]
pub fn lv_holding_read(
    holding: &[u8],
    source: &mut u32,
    sequence: &mut u16,
    timestamp: &mut u32,
    l: &mut u8,
    b: &mut u8,
    held: &mut u8,
) -> u8
    ensures { holding_told result source.new sequence.new timestamp.new l.new b.new held.new
        ≡ holding_after (read_held (holding_voice holding.now) holding.now)
        source.old sequence.old timestamp.old l.old b.old held.old }
{
    match lending::read_holding(holding) {
        Err(reason) => reason.number(),
        Ok(group) => {
            *source = group.source;
            *sequence = group.numbers.sequence;
            *timestamp = group.numbers.timestamp;
            *l = group.numbers.l;
            *b = group.numbers.b;
            *held = group.held;
            0
        }
    }
}

// The lost frames between the group of one holding and that of a later one: 0 and their number; or the refusal's number, and nothing
// written.
pub fn lv_holding_lost(before: &[u8], after: &[u8], lost: &mut usize) -> u8
    ensures { count_told result lost.new
        ≡ count_after (lost_of (holding_voice before.now) before.now after.now) lost.old }
{
    tell_count(lending::lost_between(before, after), lost)
}
