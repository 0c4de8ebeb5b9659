// Recordings (document 01, "Recordings"): the opening octets, then entries of one octet and a body.
#![tactic(auto)]

ghost use Rattle.std.specs.Prelude.{◌≡◌};
ghost use Rattle.answers.specs.Outputs.{Writes};
ghost use Rattle.entries.specs.Counting.{counted_of};
ghost use Rattle.entries.specs.Kind.{kind_of};
ghost use Rattle.frame.specs.Places.{located_of, body_of, start_of, VeryPart};
ghost use Rattle.recording.specs.Recording.{opens_with, recording_read, recording_made};
ghost use Rattle.recording.specs.Shown.{given_in};

use answers::Refusal;
use entries::Rule;
use frame::{Located, Vocoder};

// The opening octets: #!EVRC and a newline.
const OPENING: [u8; 7] = *b"#!EVRC\n";

const HEAD: usize = 7;

// Whether a recording begins with the opening octets.
fn opens(vocoder: Vocoder, recording: &[u8]) -> bool
    ensures { result ≡ opens_with (kind_of vocoder) recording.now }
{
    recording.starts_with(&OPENING)
}

// The number of frames of a recording.
#[tactic(auto, unfolding(crate::specs::Recording::recording_read, entries::specs::Counting::counted_of))]
pub fn read(vocoder: Vocoder, recording: &[u8]) -> Result<usize, Refusal>
    ensures { result ≡ counted_of (recording_read (kind_of vocoder) recording.now) }
{
    if !opens(vocoder, recording) {
        return Err(Refusal::WrongOpening);
    }
    entries::count(vocoder, Rule::Any, recording, HEAD)
}

// Where frame k of a recording lies; 21 where k is not below the frame count.
pub fn locate(vocoder: Vocoder, recording: &[u8], k: usize) -> Result<Located, Refusal>
    ensures { result ≡ located_of (given_in (kind_of vocoder) recording.now) k }
{
    let count = read(vocoder, recording)?;
    if count <= k {
        return Err(Refusal::NotApplicable);
    }
    let at = HEAD + entries::seek(vocoder, &recording[HEAD..], k);
    let kind = recording[at] % 64;
    Ok(Located {
        kind,
        start: at + 1,
        size: frame::body_size(vocoder, kind),
    })
}

// The body of frame k: the very part of the recording where it lies; empty on a refusal.
pub fn body(vocoder: Vocoder, recording: &[u8], k: usize) -> &[u8]
    ensures { VeryPart recording.entry (start_of (located_of (given_in (kind_of vocoder) recording.now) k)) (body_of (given_in (kind_of vocoder) recording.now) k) result }
{
    frame::part(recording, locate(vocoder, recording, k))
}

// Writes a recording of entries: the opening octets, then the entries with F and D at 0.
#[tactic(auto, using(crate::proofs::Answering::refused_answer, crate::proofs::Answering::refused_rest))]
pub fn write(vocoder: Vocoder, entries: &[u8], out: &mut [u8]) -> Result<usize, Refusal>
    ensures { Writes (recording_made (kind_of vocoder) entries.now) out.old result out.new }
{
    entries::count(vocoder, Rule::Any, entries, 0)?;
    if out.len() < HEAD || out.len() - HEAD < entries.len() {
        return Err(Refusal::NoRoom);
    }
    octets::copy(out, 0, &OPENING);
    entries::write_cleared(vocoder, out, HEAD, entries);
    Ok(HEAD + entries.len())
}
