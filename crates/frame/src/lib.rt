// Frames (document 01, "Frames"): vocoders, their frame tables and the shapes of their groups; and where a frame lies ("Payloads").
#![tactic(auto)]

ghost use Rattle.std.specs.Prelude.{◌≡◌};
ghost use Rattle.frame.specs.FrameTable.{evrc, rows_of, row_of, row_of_size, size, low_bits, sendable};
ghost use Rattle.frame.specs.Shape.{packets_of, shape_of};
ghost use Rattle.frame.specs.Places.{part_start, part_of, VeryPart};

use answers::Refusal;

// A row of a frame table: a type, the octets of its body, the low bits of the last octet that are zero when sent, and
// whether a frame of the type may be sent.
// A type is the number that the papers and the C calls give it: lent octets may hold any, and the rule of a holding judges them, so no
// enum of the types in the table can stand there.
#[derive(Clone, Copy, Debug, PartialEq, Eq)]
pub struct Row {
    pub kind: u8,
    pub octets: usize,
    pub spare: u8,
    pub sent: bool,
}

// The vocoders that the sets speak, each with a frame table.
#[derive(Clone, Copy, Debug, PartialEq, Eq)]
pub enum Vocoder {
    Evrc,
}

// The row of a type in the EVRC table; all other types are reserved.
#[tactic(auto, unfolding(crate::specs::FrameTable::row_of))]
fn evrc_row(kind: u8) -> Option<Row>
    ensures { result ≡ row_of evrc kind }
{
    match kind {
        0 => Some(Row {
            kind: 0,
            octets: 0,
            spare: 0,
            sent: true,
        }),
        1 => Some(Row {
            kind: 1,
            octets: 2,
            spare: 0,
            sent: true,
        }),
        3 => Some(Row {
            kind: 3,
            octets: 10,
            spare: 0,
            sent: true,
        }),
        4 => Some(Row {
            kind: 4,
            octets: 22,
            spare: 5,
            sent: true,
        }),
        14 => Some(Row {
            kind: 14,
            octets: 0,
            spare: 0,
            sent: false,
        }),
        _ => None,
    }
}

// The row of a type in a vocoder's frame table; all other types are reserved.
#[tactic(auto, unfolding(crate::specs::FrameTable::rows_of))]
pub fn row_of(vocoder: Vocoder, kind: u8) -> Option<Row>
    ensures { result ≡ row_of (rows_of vocoder) kind }
{
    match vocoder {
        Vocoder::Evrc => evrc_row(kind),
    }
}

// The octets of a cell, the room of one frame, in a vocoder's groups.
#[tactic(auto, unfolding(crate::specs::Shape::shape_of))]
pub fn cell_of(vocoder: Vocoder) -> usize
    ensures { result ≡ (shape_of vocoder).cell }
{
    match vocoder {
        Vocoder::Evrc => 22,
    }
}

// The packets of the longest group of a vocoder.
#[tactic(auto, unfolding(crate::specs::Shape::shape_of))]
pub fn packets_of(vocoder: Vocoder) -> usize
    ensures { result ≡ packets_of (shape_of vocoder) }
{
    match vocoder {
        Vocoder::Evrc => 8,
    }
}

// The octets of the body of a type; 0 if it is not in the vocoder's frame table.
pub fn body_size(vocoder: Vocoder, kind: u8) -> usize
    ensures { result ≡ size (rows_of vocoder) kind }
{
    row_of(vocoder, kind).map_or(0, |row| row.octets)
}

// The row that a header-free body of so many octets has in the EVRC table; no octets have none.
#[tactic(auto, unfolding(crate::specs::FrameTable::row_of, crate::specs::FrameTable::row_with))]
fn evrc_row_of_size(size: usize) -> Option<Row>
    ensures { result ≡ row_of_size evrc size }
{
    match size {
        0 => None,
        2 => evrc_row(1),
        10 => evrc_row(3),
        22 => evrc_row(4),
        _ => None,
    }
}

// The row that a header-free body of so many octets has in a vocoder's frame table; no octets have none.
#[tactic(auto, unfolding(crate::specs::FrameTable::rows_of))]
pub fn row_of_size(vocoder: Vocoder, size: usize) -> Option<Row>
    ensures { result ≡ row_of_size (rows_of vocoder) size }
{
    match vocoder {
        Vocoder::Evrc => evrc_row_of_size(size),
    }
}

// The lowest bits of an octet, as a number.
pub fn low_bits(octet: u8, bits: u8) -> u8
    ensures { result ≡ low_bits octet bits }
{
    if 8 <= bits {
        return octet;
    }
    octet % (1u8 << bits)
}

// Whether a frame may be sent: its type may, its body is as long as the table says, and the spare bits are zero.
pub fn is_sendable(vocoder: Vocoder, kind: u8, body: &[u8]) -> bool
    ensures { result ≡ sendable (rows_of vocoder) kind body.now }
{
    let Some(row) = row_of(vocoder, kind) else {
        return false;
    };
    if body.len() != row.octets {
        return false;
    }
    match body.last() {
        Some(last) => low_bits(*last, row.spare) == 0 && row.sent,
        None => row.sent,
    }
}

// Where a frame lies: its type, and its body's start and size.
#[derive(Clone, Copy, Debug, PartialEq, Eq)]
pub struct Located {
    pub kind: u8,
    pub start: usize,
    pub size: usize,
}

// The very part of the octets where a frame lies; empty on a refusal, and where it does not lie within them.
pub fn part(octets: &[u8], place: Result<Located, Refusal>) -> &[u8]
    ensures { VeryPart octets.entry (part_start place octets.now) (part_of place octets.now) result }
{
    let Ok(at) = place else {
        return &octets[..0];
    };
    if octets.len() < at.start || octets.len() - at.start < at.size {
        return &octets[..0];
    }
    &octets[at.start..at.start + at.size]
}
