// The calls for a host in C (include/landing_voice.h), as C links them: each calls the function of crates/landing that has its name, and
// promises what that promises, word for word (tools/claims holds the two to each other). A crate is a library, as the claims need it, or
// a static library, as C does: so the calls stand twice.
#![tactic(auto)]

ghost use Rattle.std.specs.Prelude.{◌≡◌};
ghost use Rattle.answers.specs.Outputs.{written_of};
ghost use Rattle.entries.specs.Counting.{counted_of};
ghost use Rattle.entries.specs.Kind.{kind_of};
ghost use Rattle.frame.specs.Places.{located_of};
ghost use Rattle.lending.specs.Laid.{session_voice, holding_voice};
ghost use Rattle.capture.specs.Run.{capture_kind, answer_of};
ghost use Rattle.lending.specs.Calls.{offer_answer, offer_octets, pour_of, pour_octets, copy_answer, copy_octets, end_answer, end_octets};
ghost use Rattle.lending.specs.Calls.{join_answer, join_octets, pour_held, drop_answer, drop_octets, read_held, lost_of};
ghost use Rattle.payload.specs.Shown.{contents_of};
ghost use Rattle.recording.specs.Recording.{recording_read, recording_made};
ghost use Rattle.recording.specs.Shown.{given_in};
ghost use Rattle.landing.specs.Host.{fault_place, capture_place, place_after};
ghost use Rattle.landing.specs.Host.{named_form, read_named, given_named, packet_told, packet_after, frame_told, frame_after};
ghost use Rattle.landing.specs.Host.{count_told, count_after, write_told, write_after, packet_named};
ghost use Rattle.landing.specs.Host.{header_free_named, record_after, capture_after, answer_number, open_named};
ghost use Rattle.landing.specs.Host.{opened_named, holding_told, holding_after};

use frame::Vocoder;

// Reads a payload: 0 and its L, N, B and D; or the refusal's number, and nothing written but its place.
#[unsafe(no_mangle)]
pub extern "C" fn lv_payload_read(
    form: u8,
    max_l: u8,
    max_b: u8,
    payload: &[u8],
    l: &mut u8,
    n: &mut u8,
    b: &mut u8,
    d: &mut u8,
    place: &mut usize,
) -> u8
    ensures { (packet_told result l.new n.new b.new d.new
        ≡ packet_after (contents_of (read_named (named_form form max_l max_b) payload.now)) l.old n.old b.old d.old)
        × (place.new
        ≡ place_after (fault_place (contents_of (read_named (named_form form max_l max_b) payload.now))) place.old) }
{
    landing::lv_payload_read(form, max_l, max_b, payload, l, n, b, d, place)
}

// Frame k of a payload: its type, and its body's start and size in the payload.
#[unsafe(no_mangle)]
pub extern "C" fn lv_payload_frame(
    form: u8,
    max_l: u8,
    max_b: u8,
    payload: &[u8],
    k: usize,
    kind: &mut u8,
    start: &mut usize,
    size: &mut usize,
    place: &mut usize,
) -> u8
    ensures { (frame_told result kind.new start.new size.new
        ≡ frame_after (located_of (given_named (named_form form max_l max_b) payload.now) k) kind.old start.old size.old)
        × (place.new
        ≡ place_after (fault_place (located_of (given_named (named_form form max_l max_b) payload.now) k)) place.old) }
{
    landing::lv_payload_frame(form, max_l, max_b, payload, k, kind, start, size, place)
}

// Reads a recording: 0 and its frame count; or the refusal's number, and nothing written but its place.
#[unsafe(no_mangle)]
pub extern "C" fn lv_recording_read(recording: &[u8], count: &mut usize, place: &mut usize) -> u8
    ensures { (count_told result count.new
        ≡ count_after (counted_of (recording_read (kind_of Vocoder.Evrc) recording.now)) count.old)
        × (place.new
        ≡ place_after (fault_place (counted_of (recording_read (kind_of Vocoder.Evrc) recording.now))) place.old) }
{
    landing::lv_recording_read(recording, count, place)
}

// Frame k of a recording: its type, and its body's start and size in the recording.
#[unsafe(no_mangle)]
pub extern "C" fn lv_recording_frame(
    recording: &[u8],
    k: usize,
    kind: &mut u8,
    start: &mut usize,
    size: &mut usize,
    place: &mut usize,
) -> u8
    ensures { (frame_told result kind.new start.new size.new
        ≡ frame_after (located_of (given_in (kind_of Vocoder.Evrc) recording.now) k) kind.old start.old size.old)
        × (place.new
        ≡ place_after (fault_place (located_of (given_in (kind_of Vocoder.Evrc) recording.now) k)) place.old) }
{
    landing::lv_recording_frame(recording, k, kind, start, size, place)
}

// Writes a recording of entries.
#[unsafe(no_mangle)]
pub extern "C" fn lv_recording_write(
    entries: &[u8],
    out: &mut [u8],
    written: &mut usize,
    place: &mut usize,
) -> u8
    ensures { (write_told result written.new out.new
        ≡ write_after (recording_made (kind_of Vocoder.Evrc) entries.now) written.old out.old)
        × (place.new
        ≡ place_after (fault_place (written_of (recording_made (kind_of Vocoder.Evrc) entries.now) out.old)) place.old) }
{
    landing::lv_recording_write(entries, out, written, place)
}

// Writes packet n of an interleave group.
#[unsafe(no_mangle)]
pub extern "C" fn lv_packet_write(
    form: u8,
    max_l: u8,
    max_b: u8,
    l: u8,
    n: u8,
    b: u8,
    d: u8,
    entries: &[u8],
    out: &mut [u8],
    written: &mut usize,
    place: &mut usize,
) -> u8
    ensures { (write_told result written.new out.new
        ≡ write_after (packet_named (named_form form max_l max_b) l n b d entries.now) written.old out.old)
        × (place.new
        ≡ place_after (fault_place (written_of (packet_named (named_form form max_l max_b) l n b d entries.now) out.old)) place.old) }
{
    landing::lv_packet_write(form, max_l, max_b, l, n, b, d, entries, out, written, place)
}

// Writes a header-free packet.
#[unsafe(no_mangle)]
pub extern "C" fn lv_packet_write_header_free(
    form: u8,
    max_l: u8,
    max_b: u8,
    entries: &[u8],
    out: &mut [u8],
    written: &mut usize,
    place: &mut usize,
) -> u8
    ensures { (write_told result written.new out.new
        ≡ write_after (header_free_named (named_form form max_l max_b) entries.now) written.old out.old)
        × (place.new
        ≡ place_after (fault_place (written_of (header_free_named (named_form form max_l max_b) entries.now) out.old)) place.old) }
{
    landing::lv_packet_write_header_free(form, max_l, max_b, entries, out, written, place)
}

// Turns a capture into a recording; 255 for a bad capture.
#[unsafe(no_mangle)]
pub extern "C" fn lv_capture_record(capture: &[u8], out: &mut [u8], written: &mut usize) -> u8
    ensures { write_told result written.new out.new
        ≡ record_after capture_kind capture.now written.old out.old }
{
    landing::lv_capture_record(capture, out, written)
}

// What packet i of a capture was answered in the run that lv_capture_record makes; 255 for a bad capture, 21 where there is none.
#[unsafe(no_mangle)]
pub extern "C" fn lv_capture_answer(
    capture: &[u8],
    i: usize,
    lost: &mut usize,
    place: &mut usize,
) -> u8
    ensures { (count_told result lost.new ≡ capture_after (answer_of capture_kind capture.now i) lost.old)
        × (place.new ≡ place_after (capture_place (answer_of capture_kind capture.now i)) place.old) }
{
    landing::lv_capture_answer(capture, i, lost, place)
}

// Opens a session.
#[unsafe(no_mangle)]
pub extern "C" fn lv_session_open(
    source: u32,
    form: u8,
    max_l: u8,
    max_b: u8,
    session: &mut [u8],
) -> u8
    ensures { (result ≡ answer_number (open_named (named_form form max_l max_b) source session.old))
        × (session.new ≡ opened_named (named_form form max_l max_b) source session.old) }
{
    landing::lv_session_open(source, form, max_l, max_b, session)
}

// Offers a packet to a session.
#[unsafe(no_mangle)]
pub extern "C" fn lv_session_offer(
    session: &mut [u8],
    source: u32,
    sequence: u16,
    timestamp: u32,
    payload: &[u8],
    lost: &mut usize,
    place: &mut usize,
) -> u8
    ensures { (count_told result lost.new
        ≡ count_after (offer_answer (session_voice session.old) session.old source sequence timestamp payload.now) lost.old)
        × (place.new
        ≡ place_after (fault_place (offer_answer (session_voice session.old) session.old source sequence timestamp payload.now)) place.old)
        × (session.new ≡ offer_octets (session_voice session.old) session.old source sequence timestamp payload.now) }
{
    landing::lv_session_offer(session, source, sequence, timestamp, payload, lost, place)
}

// Pours the held group of a session, and ends it.
#[unsafe(no_mangle)]
pub extern "C" fn lv_session_pour(session: &mut [u8], out: &mut [u8], written: &mut usize) -> u8
    ensures { (write_told result written.new out.new
        ≡ write_after (pour_of (session_voice session.old) session.old) written.old out.old)
        × (session.new
        ≡ pour_octets session.old (written_of (pour_of (session_voice session.old) session.old) out.old)) }
{
    landing::lv_session_pour(session, out, written)
}

// Copies the held group of a session out.
#[unsafe(no_mangle)]
pub extern "C" fn lv_session_copy(session: &[u8], holding: &mut [u8]) -> u8
    ensures { (result ≡ answer_number (copy_answer (session_voice session.now) session.now holding.old))
        × (holding.new ≡ copy_octets (session_voice session.now) session.now holding.old) }
{
    landing::lv_session_copy(session, holding)
}

// Ends the held group of a session as pouring does, and writes nothing.
#[unsafe(no_mangle)]
pub extern "C" fn lv_session_drop(session: &mut [u8]) -> u8
    ensures { (result ≡ answer_number (drop_answer (session_voice session.old) session.old))
        × (session.new ≡ drop_octets (session_voice session.old) session.old) }
{
    landing::lv_session_drop(session)
}

// Ends a session.
#[unsafe(no_mangle)]
pub extern "C" fn lv_session_end(session: &mut [u8]) -> u8
    ensures { (result ≡ answer_number (end_answer session.old))
        × (session.new ≡ end_octets session.old) }
{
    landing::lv_session_end(session)
}

// Joins two holdings.
#[unsafe(no_mangle)]
pub extern "C" fn lv_holding_join(a: &[u8], b: &[u8], out: &mut [u8]) -> u8
    ensures { (result ≡ answer_number (join_answer (holding_voice a.now) a.now b.now out.old))
        × (out.new ≡ join_octets (holding_voice a.now) a.now b.now out.old) }
{
    landing::lv_holding_join(a, b, out)
}

// Pours a holding.
#[unsafe(no_mangle)]
pub extern "C" fn lv_holding_pour(holding: &[u8], out: &mut [u8], written: &mut usize) -> u8
    ensures { write_told result written.new out.new
        ≡ write_after (pour_held (holding_voice holding.now) holding.now) written.old out.old }
{
    landing::lv_holding_pour(holding, out, written)
}

// What a holding is: 0, and its source, base numbers, L, B and which packets it holds, bit N for packet N; or the refusal's number,
// and nothing written.
#[unsafe(no_mangle)]
pub extern "C" fn lv_holding_read(
    holding: &[u8],
    source: &mut u32,
    sequence: &mut u16,
    timestamp: &mut u32,
    l: &mut u8,
    b: &mut u8,
    held: &mut u8,
) -> u8
    ensures { holding_told result source.new sequence.new timestamp.new l.new b.new held.new
        ≡ holding_after (read_held (holding_voice holding.now) holding.now)
        source.old sequence.old timestamp.old l.old b.old held.old }
{
    landing::lv_holding_read(holding, source, sequence, timestamp, l, b, held)
}

// The lost frames between the group of one holding and that of a later one: 0 and their number; or the refusal's number, and nothing
// written.
#[unsafe(no_mangle)]
pub extern "C" fn lv_holding_lost(before: &[u8], after: &[u8], lost: &mut usize) -> u8
    ensures { count_told result lost.new
        ≡ count_after (lost_of (holding_voice before.now) before.now after.now) lost.old }
{
    landing::lv_holding_lost(before, after, lost)
}
