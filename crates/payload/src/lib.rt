// Reads payloads (document 01, "Payloads"): octet 0, the table of contents, the bodies; or one body and nothing else.
#![tactic(auto)]

ghost use Rattle.std.specs.Prelude.{◌≡◌, ◌⊎◌, ℕ, ◌+◌, ◌-◌, ◌<◌, ◌≤◌, map, length, drop, take, get_or};
ghost use Rattle.bundle.specs.Bundles.{bundle_in, not_held};
ghost use Rattle.bundle.specs.LaidOut.{laid};
ghost use Rattle.frame.specs.Shape.{holding_shape, shape_of, room_of};
ghost use Rattle.form.specs.declared.Form.TheVariants.{HeaderFree, Interleaved};
ghost use Rattle.frame.specs.Entry.{type_of};
ghost use Rattle.frame.specs.FrameTable.{FrameTable, rows_of};
ghost use Rattle.form.specs.Agreed.{table_of, default_form};
ghost use Rattle.frame.specs.Places.{located_of, body_of, start_of, VeryPart};
ghost use Rattle.payload.specs.Payload.{Reading, read_as, interleaved, toc, total, cut, first_cut};
ghost use Rattle.payload.specs.Shown.{contents_of, walked, given_as, frames_read, holds_packet, whole_table};

use answers::Refusal;
use bundle::Bundle;
use form::{Form, Limits};
use frame::{Located, Vocoder};

// What a payload holds: L, N, B and D.
#[derive(Clone, Copy, Debug, PartialEq, Eq)]
pub struct Contents {
    pub l: u8,
    pub n: u8,
    pub b: u8,
    pub d: u8,
}

// What the walk over a table of contents yields: the count of the entries, the size of their bodies and the last entry's D.
#[derive(Clone, Copy, Debug, PartialEq, Eq)]
pub struct Walked {
    pub count: usize,
    pub size: usize,
    pub d: u8,
}

// The most entries that may stand in so many octets, behind octet 0: no more than max.
fn most_entries(max: usize, octets: usize) -> usize
    ensures { (result ≤ max) × (result ≤ octets - 1) × ((max ≤ result) ⊎ (octets ≤ result + 1)) }
{
    max.min(octets.saturating_sub(1))
}

// The walk over the table of contents, which ends at the first fault it meets; sums keeps, for each body, the octets of those
// before it.
fn walk(vocoder: Vocoder, max_b: u8, payload: &[u8], sums: &mut [usize]) -> Result<Walked, Refusal>
    requires { max_b ≤ length sums.old }
    ensures value { result ≡ walked (rows_of vocoder) (toc (rows_of vocoder) max_b 0 1 (drop 1 payload.now)) }
    ensures sums_kept { (c s d : ℕ) → result ≡ whole_table c s d → (i : ℕ) → i < c
        → get_or sums.new i 0 ≡ total (rows_of vocoder) (take i (map type_of (drop 1 payload.now))) }
{
    let most = most_entries(max_b as usize, payload.len());
    let mut count: usize = 0;
    let mut size: usize = 0;
    // The customer's paper names this form for this place, so it is no `for`.
    'entries: loop {
        let at = count + 1;
        if most <= count {
            if payload.len() <= at {
                break 'entries Err(Refusal::TableCut(at));
            }
            break 'entries Err(Refusal::TooManyFrames(at));
        }
        let entry = payload[at];
        let Some(row) = frame::row_of(vocoder, entry % 64) else {
            break 'entries Err(Refusal::ReservedType(at));
        };
        sums[count] = size;
        size += row.octets;
        count = at;
        if entry < 128 {
            let d = entry / 64 % 2;
            break 'entries Ok(Walked { count, size, d });
        }
    }
}

// The place of the first of count bodies that doesn't fit whole, by the walk's sums; the last body's where all before it fit.
fn first_cut(payload: &[u8], count: usize, sums: &[usize]) -> usize
    requires { (0 < count) × (count < length payload.now) × (count ≤ length sums.now) × (get_or sums.now 0 0 ≡ 0) }
    ensures { (v : FrameTable)
        → ((i : ℕ) → i < count → get_or sums.now i 0 ≡ total v (take i (map type_of (drop 1 payload.now))))
        → length payload.now - 1 - count < total v (take count (map type_of (drop 1 payload.now)))
        → result ≡ first_cut v (1 + count) (take count (map type_of (drop 1 payload.now))) (drop (1 + count) payload.now) }
{
    let left = payload.len() - 1 - count;
    let j = sums[1..count]
        .iter()
        .position(|sum| left < *sum)
        .unwrap_or(count - 1);
    1 + count + sums[j]
}

// Type 1, under limits that are in range: octet 0, then the walk, then the bodies.
fn read_within(
    vocoder: Vocoder,
    limits: Limits,
    payload: &[u8],
    sums: &mut [usize],
) -> Result<Contents, Refusal>
    requires { (limits.max_b ≤ 10) × (length sums.old ≡ 10) }
    ensures value { result ≡ contents_of (interleaved (rows_of vocoder) limits payload.now) }
    ensures sums_kept { (l n b d : ℕ) → result ≡ holds_packet l n b d → (i : ℕ) → i < b
        → get_or sums.new i 0 ≡ total (rows_of vocoder) (take i (map type_of (drop 1 payload.now))) }
{
    let Some(head) = payload.first() else {
        return Err(Refusal::NoOctet);
    };
    let l = head / 8 % 8;
    let n = head % 8;
    if l < n {
        return Err(Refusal::IndexPastLength);
    }
    if limits.max_l < l {
        return Err(Refusal::LengthPastMaximum);
    }
    let Walked { count, size, d } = walk(vocoder, limits.max_b, payload, sums)?;
    let left = payload.len() - 1 - count;
    if left < size {
        return Err(Refusal::BodiesCut(first_cut(payload, count, sums)));
    }
    if size < left {
        return Err(Refusal::OctetsLeft(1 + count + size));
    }
    let b = count as u8;
    Ok(Contents { l, n, b, d })
}

// Type 1: limits out of range are refused first.
fn read_interleaved(
    vocoder: Vocoder,
    limits: Limits,
    payload: &[u8],
    sums: &mut [usize],
) -> Result<Contents, Refusal>
    requires { length sums.old ≡ 10 }
    ensures value { result ≡ contents_of (read_as (rows_of vocoder) (Interleaved limits) payload.now) }
    ensures sums_kept { (l n b d : ℕ) → result ≡ holds_packet l n b d → (i : ℕ) → i < b
        → get_or sums.new i 0 ≡ total (rows_of vocoder) (take i (map type_of (drop 1 payload.now))) }
{
    let agreed = Limits::open(limits.max_l, limits.max_b)?;
    read_within(vocoder, agreed, payload, sums)
}

// Type 2: read as a group with L = 0, N = 0, B = 1, and D is reported as 0.
#[tactic(auto, unfolding(crate::specs::Payload::read_as, crate::specs::Payload::one_body, crate::specs::Shown::contents_of))]
fn read_header_free(vocoder: Vocoder, payload: &[u8]) -> Result<Contents, Refusal>
    ensures { result ≡ contents_of (read_as (rows_of vocoder) HeaderFree payload.now) }
{
    frame::row_of_size(vocoder, payload.len()).ok_or(Refusal::HeaderFreeLength)?;
    Ok(Contents {
        l: 0,
        n: 0,
        b: 1,
        d: 0,
    })
}

// What a payload holds, read in the agreed form.
pub fn read(form: Form, payload: &[u8]) -> Result<Contents, Refusal>
    ensures { result ≡ contents_of (read_as (table_of form) form payload.now) }
{
    match form {
        Form::HeaderFree => read_header_free(Vocoder::Evrc, payload),
        Form::Interleaved(limits) => {
            let mut sums = [0usize; 10];
            read_interleaved(Vocoder::Evrc, limits, payload, &mut sums)
        }
    }
}

// The same in the form that is agreed where none is named.
pub fn read_agreed(payload: &[u8]) -> Result<Contents, Refusal>
    ensures { result ≡ contents_of (read_as (table_of default_form) default_form payload.now) }
{
    read(Form::Interleaved(Limits::agreed()), payload)
}

// Frame k of a type 1 payload.
fn locate_interleaved(
    vocoder: Vocoder,
    limits: Limits,
    payload: &[u8],
    k: usize,
) -> Result<Located, Refusal>
    ensures { result ≡ located_of (given_as (rows_of vocoder) (Interleaved limits) payload.now) k }
{
    let mut sums = [0usize; 10];
    let held = read_interleaved(vocoder, limits, payload, &mut sums)?;
    let count = held.b as usize;
    if count <= k {
        return Err(Refusal::NotApplicable);
    }
    let kind = payload[k + 1] % 64;
    Ok(Located {
        kind,
        start: 1 + count + sums[k],
        size: frame::body_size(vocoder, kind),
    })
}

// Frame k of a header-free payload: it has one.
#[tactic(auto, unfolding(crate::specs::Payload::read_as, crate::specs::Payload::one_body, crate::specs::Shown::given_of, crate::specs::Shown::given_as, frame::specs::Places::located_of))]
fn locate_header_free(vocoder: Vocoder, payload: &[u8], k: usize) -> Result<Located, Refusal>
    ensures { result ≡ located_of (given_as (rows_of vocoder) HeaderFree payload.now) k }
{
    let Some(row) = frame::row_of_size(vocoder, payload.len()) else {
        return Err(Refusal::HeaderFreeLength);
    };
    if 0 < k {
        return Err(Refusal::NotApplicable);
    }
    Ok(Located {
        kind: row.kind,
        start: 0,
        size: payload.len(),
    })
}

// Where frame k of a payload lies; 21 where k is not below the frame count.
pub fn locate(form: Form, payload: &[u8], k: usize) -> Result<Located, Refusal>
    ensures { result ≡ located_of (given_as (table_of form) form payload.now) k }
{
    match form {
        Form::HeaderFree => locate_header_free(Vocoder::Evrc, payload, k),
        Form::Interleaved(limits) => locate_interleaved(Vocoder::Evrc, limits, payload, k),
    }
}

// The body of frame k: the very part of the payload where it lies; empty on a refusal.
pub fn body(form: Form, payload: &[u8], k: usize) -> &[u8]
    ensures { VeryPart payload.entry (start_of (located_of (given_as (table_of form) form payload.now) k)) (body_of (given_as (table_of form) form payload.now) k) result }
{
    frame::part(payload, locate(form, payload, k))
}

// Lays b frames out over erasures and zeros, along the entries from octet 1 on and the bodies behind them together.
fn lay_entries(vocoder: Vocoder, payload: &[u8], b: u8, marks: &mut [u8], room: &mut [u8])
    requires { (b ≤ 10)
        × (1 + b + total (rows_of vocoder) (take b (map type_of (drop 1 payload.now))) ≤ length payload.now)
        × (bundle_in marks.old room.old ≡ not_held (shape_of vocoder)) }
    ensures { bundle_in marks.new room.new
        ≡ laid (shape_of vocoder) (cut (rows_of vocoder) (take b (map type_of (drop 1 payload.now))) (drop (1 + b) payload.now)) }
{
    let cell = frame::cell_of(vocoder);
    let count = b as usize;
    let mut start = 1 + count;
    for k in 0..count {
        let mark = payload[k + 1] % 64;
        let end = start + frame::body_size(vocoder, mark);
        marks[k] = mark;
        octets::copy(room, cell * k, &payload[start..end]);
        start = end;
    }
}

// Lays the one frame of a header-free payload out over erasures and zeros, if it has one.
fn lay_body(vocoder: Vocoder, payload: &[u8], marks: &mut [u8], room: &mut [u8])
    requires { bundle_in marks.old room.old ≡ not_held (shape_of vocoder) }
    ensures { bundle_in marks.new room.new
        ≡ laid (shape_of vocoder) (frames_read (read_as (rows_of vocoder) HeaderFree payload.now)) }
{
    if let Some(row) = frame::row_of_size(vocoder, payload.len()) {
        marks[0] = row.kind;
        octets::copy(room, 0, payload);
    }
}

// internal: a caller has cut the ten marks and the cells of a packet, and b is the number of the frames that were read.
// Lays the frames of a payload out as a packet, whatever was there; none where the payload is refused.
pub fn lay_frames(form: Form, payload: &[u8], b: u8, marks: &mut [u8], room: &mut [u8])
    requires { (b ≡ length (frames_read (read_as (table_of form) form payload.now)))
        × (length marks.old ≡ 10)
        × (length room.old ≡ room_of holding_shape) }
    ensures { bundle_in marks.new room.new
        ≡ laid holding_shape (frames_read (read_as (table_of form) form payload.now)) }
{
    octets::fill(marks, 0, 10, 14);
    octets::fill(room, 0, 220, 0);
    if b == 0 {
        return;
    }
    match form {
        Form::HeaderFree => lay_body(Vocoder::Evrc, payload, marks, room),
        Form::Interleaved(_) => lay_entries(Vocoder::Evrc, payload, b, marks, room),
    }
}

// The number of frames of a payload that was read; none where it was refused.
#[tactic(auto, unfolding(crate::specs::Shown::contents_of, crate::specs::Shown::frames_read))]
fn frames_in(contents: Result<Contents, Refusal>) -> u8
    ensures { (w : Reading) → contents ≡ contents_of w → result ≡ length (frames_read w) }
{
    contents.map_or(0, |held| held.b)
}

// The frames of a payload laid out as a packet; none where the payload is refused.
pub fn lay_out(form: Form, payload: &[u8]) -> Bundle
    ensures { result ≡ laid holding_shape (frames_read (read_as (table_of form) form payload.now)) }
{
    let b = frames_in(read(form, payload));
    let mut laid = bundle::not_held();
    lay_frames(form, payload, b, &mut laid.marks, &mut laid.room);
    laid
}
