// Writes packets (document 01, "Writing packets"): packet N of an interleave group, and header-free packets.
#![tactic(auto)]

ghost use Rattle.std.specs.Prelude.{◌≡◌, ℕ, ◌+◌, ◌*◌, ◌<◌, ◌≤◌, length, get_or};
ghost use Rattle.answers.specs.Outputs.{Writes};
ghost use Rattle.entries.specs.Kind.{kind_of};
ghost use Rattle.entries.specs.Entries.{entries_in};
ghost use Rattle.form.specs.Agreed.{vocoder_of, default_form};
ghost use Rattle.form.specs.declared.Form.TheVariants.{Interleaved};
ghost use Rattle.frame.specs.FrameTable.{types_of};
ghost use Rattle.frame.specs.Places.{frame_at};
ghost use Rattle.octets.specs.Octets.{over};
ghost use Rattle.packet.specs.Packet.{place_of, packet_frames, toc_of, bodies_of, group_in, Picked, EntryAt};
ghost use Rattle.packet.specs.Writing.{packet_made, packet_within, packet_of_group, header_free_made, one_body};

use answers::Refusal;
use entries::Rule;
use form::{Form, Limits};
use frame::Vocoder;

// Memory is fixed: `places` has room for the ten entries that a packet may have, and b stands beside it. L, N, B and D are handed on one by
// one, as the C call that writes a packet hands them.

// Goes along the entries once: the octets of the bodies of packet n's first b frames, and the place of each one's entry.
fn pick(
    vocoder: Vocoder,
    l: usize,
    n: usize,
    b: usize,
    entries: &[u8],
    places: &mut [usize],
) -> usize
    requires { Picked (kind_of vocoder) l n b entries.now × (b ≤ length places.old) }
    ensures value { (result ≡ length (bodies_of (packet_frames l n b (group_in (kind_of vocoder) entries.now)))) × (result ≤ 255 * b) }
    ensures places_kept { (k : ℕ) → k < b
        → EntryAt (kind_of vocoder) entries.now (get_or places.new k 0) (frame_at (group_in (kind_of vocoder) entries.now) (place_of l n k)) }
{
    let mut at: usize = 0;
    let mut skip = n;
    let mut size: usize = 0;
    for k in 0..b {
        at += entries::seek(vocoder, &entries[at..], skip);
        places[k] = at;
        size += frame::body_size(vocoder, entries[at] % 64);
        skip = l + 1;
    }
    size
}

// Writes the table of contents over out from index 1 on: the same D in all entries, and F in all but the last.
fn write_table(
    vocoder: Vocoder,
    out: &mut [u8],
    l: usize,
    n: usize,
    b: usize,
    d: u8,
    entries: &[u8],
    places: &[usize],
)
    requires { (d ≤ 1) × (1 + b ≤ length out.old) × (b ≤ length places.now) × ((k : ℕ) → k < b
        → EntryAt (kind_of vocoder) entries.now (get_or places.now k 0) (frame_at (group_in (kind_of vocoder) entries.now) (place_of l n k))) }
    ensures { out.new
        ≡ over out.old 1 (toc_of d (types_of (packet_frames l n b (group_in (kind_of vocoder) entries.now)))) }
{
    for k in 0..b {
        let kind = entries[places[k]] % 64;
        let next = k + 1;
        if next < b {
            out[next] = 128 + d * 64 + kind;
        } else {
            out[next] = d * 64 + kind;
        }
    }
}

// Writes the bodies over out, behind octet 0 and the table of contents.
fn write_bodies(
    vocoder: Vocoder,
    out: &mut [u8],
    l: usize,
    n: usize,
    b: usize,
    entries: &[u8],
    places: &[usize],
)
    requires { (1 + b + length (bodies_of (packet_frames l n b (group_in (kind_of vocoder) entries.now))) ≤ length out.old) × (b ≤ length places.now)
        × ((k : ℕ) → k < b
        → EntryAt (kind_of vocoder) entries.now (get_or places.now k 0) (frame_at (group_in (kind_of vocoder) entries.now) (place_of l n k))) }
    ensures { out.new
        ≡ over out.old (1 + b) (bodies_of (packet_frames l n b (group_in (kind_of vocoder) entries.now))) }
{
    let mut to = 1 + b;
    for k in 0..b {
        let at = places[k];
        let start = at + 1;
        let end = start + frame::body_size(vocoder, entries[at] % 64);
        octets::copy(out, to, &entries[start..end]);
        to += end - start;
    }
}

// Packet n of the group whose frames the entries are, all numbers judged: the walk, the frame count, the room.
fn write_group(
    vocoder: Vocoder,
    l: u8,
    n: u8,
    b: u8,
    d: u8,
    entries: &[u8],
    out: &mut [u8],
) -> Result<usize, Refusal>
    requires { (l ≤ 7) × (n ≤ l) × (1 ≤ b) × (b ≤ 10) × (d ≤ 1) }
    ensures { Writes (packet_of_group l n b d (entries_in (kind_of vocoder) Rule.Sendable entries.now)) out.old result out.new }
{
    let count = entries::count(vocoder, Rule::Sendable, entries, 0)?;
    let step = l as usize;
    let index = n as usize;
    let bundle = b as usize;
    if count != (step + 1) * bundle {
        return Err(Refusal::NotSendable);
    }
    let mut places = [0usize; 10];
    let size = 1 + bundle + pick(vocoder, step, index, bundle, entries, &mut places);
    if out.len() < size {
        return Err(Refusal::NoRoom);
    }
    out[0] = l * 8 + n;
    write_table(vocoder, out, step, index, bundle, d, entries, &places);
    write_bodies(vocoder, out, step, index, bundle, entries, &places);
    Ok(size)
}

// Packet n under limits in range: 2, 3, 6, then the group.
#[tactic(auto, unfolding(crate::specs::Writing::packet_within, answers::specs::Outputs::written_of, answers::specs::Outputs::out_after))]
fn write_within(
    vocoder: Vocoder,
    limits: Limits,
    l: u8,
    n: u8,
    b: u8,
    d: u8,
    entries: &[u8],
    out: &mut [u8],
) -> Result<usize, Refusal>
    requires { (limits.max_l ≤ 7) × (limits.max_b ≤ 10) × (d ≤ 1) }
    ensures { Writes (packet_within (kind_of vocoder) limits l n b d entries.now) out.old result out.new }
{
    if l < n {
        return Err(Refusal::IndexPastLength);
    }
    if limits.max_l < l {
        return Err(Refusal::LengthPastMaximum);
    }
    if b < 1 || limits.max_b < b {
        return Err(Refusal::BundleOutOfRange);
    }
    write_group(vocoder, l, n, b, d, entries, out)
}

// Packet N of a group under limits: 21 for limits out of range, 2, 3, 6; then the entries are judged and packed.
#[tactic(auto, unfolding(crate::specs::Writing::packet_made, form::specs::Agreed::opened, answers::specs::Outputs::written_of, answers::specs::Outputs::out_after))]
fn write_interleaved(
    vocoder: Vocoder,
    limits: Limits,
    l: u8,
    n: u8,
    b: u8,
    d: u8,
    entries: &[u8],
    out: &mut [u8],
) -> Result<usize, Refusal>
    ensures { Writes (packet_made (kind_of vocoder) (Interleaved limits) l n b d entries.now) out.old result out.new }
{
    let agreed = Limits::open(limits.max_l, limits.max_b)?;
    if 1 < d {
        return Err(Refusal::NotApplicable);
    }
    write_within(vocoder, agreed, l, n, b, d, entries, out)
}

// Writes packet n of an interleave group: octet 0, the table of contents and the bodies.
#[tactic(auto, unfolding(crate::specs::Writing::packet_made, answers::specs::Outputs::written_of, answers::specs::Outputs::out_after))]
pub fn write(
    form: Form,
    l: u8,
    n: u8,
    b: u8,
    d: u8,
    entries: &[u8],
    out: &mut [u8],
) -> Result<usize, Refusal>
    ensures { Writes (packet_made (kind_of (vocoder_of form)) form l n b d entries.now) out.old result out.new }
{
    match form {
        Form::HeaderFree => Err(Refusal::NotApplicable),
        Form::Interleaved(limits) => write_interleaved(
            Vocoder::Evrc,
            limits,
            l,
            n,
            b,
            d,
            entries,
            out,
        ),
    }
}

// The same in the form that is agreed where none is named.
pub fn write_agreed(
    l: u8,
    n: u8,
    b: u8,
    d: u8,
    entries: &[u8],
    out: &mut [u8],
) -> Result<usize, Refusal>
    ensures { Writes (packet_made (kind_of (vocoder_of default_form)) default_form l n b d entries.now) out.old result out.new }
{
    let form = Form::Interleaved(Limits::agreed());
    write(form, l, n, b, d, entries, out)
}

// The body of the one entry.
fn write_body(vocoder: Vocoder, entries: &[u8], out: &mut [u8]) -> Result<usize, Refusal>
    ensures { Writes (one_body (entries_in (kind_of vocoder) Rule.HeaderFree entries.now)) out.old result out.new }
{
    let count = entries::count(vocoder, Rule::HeaderFree, entries, 0)?;
    if count != 1 {
        return Err(Refusal::NotSendable);
    }
    let body = &entries[1..];
    if out.len() < body.len() {
        return Err(Refusal::NoRoom);
    }
    octets::copy(out, 0, body);
    Ok(body.len())
}

// Writes a header-free packet: the body of one frame, and nothing else.
#[tactic(auto, unfolding(crate::specs::Writing::header_free_made, answers::specs::Outputs::written_of, answers::specs::Outputs::out_after))]
pub fn write_header_free(form: Form, entries: &[u8], out: &mut [u8]) -> Result<usize, Refusal>
    ensures { Writes (header_free_made (kind_of (vocoder_of form)) form entries.now) out.old result out.new }
{
    match form {
        Form::Interleaved(_) => Err(Refusal::NotApplicable),
        Form::HeaderFree => write_body(Vocoder::Evrc, entries, out),
    }
}
