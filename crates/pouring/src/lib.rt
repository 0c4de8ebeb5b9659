// Pouring a holding (document 01, "Session"): all its places in time order, as recording entries.
#![tactic(auto)]

ghost use Rattle.std.specs.Prelude.{◌≡◌, ◌+◌, ◌*◌, ◌<◌, ◌≤◌, length, true};
ghost use Rattle.answers.specs.Outputs.{Writes};
ghost use Rattle.entries.specs.Entries.{entries_of};
ghost use Rattle.frame.specs.FrameTable.{rows_of};
ghost use Rattle.frame.specs.Shape.{packets_of, holding_shape, shape_of, voice_of, voice_with};
ghost use Rattle.octets.specs.Octets.{over};
ghost use Rattle.holding.specs.Group.{OfGroup, voice_in, holds};
ghost use Rattle.answers.specs.Outputs.{octets};
ghost use Rattle.pouring.specs.Pouring.{in_time, row, rows, row_size, rows_size, poured};

use answers::Refusal;
use bundle::Cells;
use frame::Vocoder;
use holding::Holding;
use numbers::GroupNumbers;

// The octets of the entries of frame k of the first m packets.
fn row_size(vocoder: Vocoder, marks: &[u8], m: usize, k: usize) -> usize
    requires { (length marks.now ≡ 10 * packets_of (shape_of vocoder)) × (m ≤ packets_of (shape_of vocoder)) × (k < 10) }
    ensures { (result ≡ row_size (rows_of vocoder) marks.now k m) × (result ≤ 2048) }
{
    (0..m)
        .map(|n| 1 + frame::body_size(vocoder, marks[10 * n + k]))
        .sum()
}

// internal: a caller has the marks and cells of a group's packets.
// The octets of the entries of the first b frames of m packets.
pub fn pour_size(vocoder: Vocoder, marks: &[u8], m: usize, b: usize) -> usize
    requires { (length marks.now ≡ 10 * packets_of (shape_of vocoder)) × (m ≤ packets_of (shape_of vocoder)) × (b ≤ 10) }
    ensures { (result ≡ rows_size (rows_of vocoder) marks.now m b) × (result ≤ 20480) }
{
    (0..b).map(|k| row_size(vocoder, marks, m, k)).sum()
}

// Writes the entries of frame k of the first m packets from index at on, and gives the index behind them.
fn pour_row(
    vocoder: Vocoder,
    cells: Cells<'_>,
    m: usize,
    k: usize,
    out: &mut [u8],
    at: usize,
) -> usize
    requires { OfGroup (shape_of vocoder) cells
        × (m ≤ packets_of (shape_of vocoder))
        × (k < 10)
        × (at + row_size (rows_of vocoder) cells.marks.now k m ≤ length out.old) }
    ensures { (result ≡ at + row_size (rows_of vocoder) cells.entry.marks.now k m)
        × (out.new ≡ over out.old at (entries_of (row (voice_of vocoder) cells.entry.marks.now cells.entry.room.now k m))) }
{
    let cell = frame::cell_of(vocoder);
    let bundle = cell * 10;
    let mut next = at;
    for n in 0..m {
        let mark = cells.marks[10 * n + k];
        let size = frame::body_size(vocoder, mark);
        let from = bundle * n + cell * k;
        out[next] = mark;
        octets::copy(out, next + 1, &cells.room[from..from + size]);
        next += 1 + size;
    }
    next
}

// internal: a caller has the marks and cells of a group's packets.
// Writes the entries of the first b frames of m packets, in time order.
pub fn pour_rows(vocoder: Vocoder, cells: Cells<'_>, m: usize, b: usize, out: &mut [u8])
    requires { OfGroup (shape_of vocoder) cells
        × (m ≤ packets_of (shape_of vocoder))
        × (b ≤ 10)
        × (rows_size (rows_of vocoder) cells.marks.now m b ≤ length out.old) }
    ensures { out.new
        ≡ over out.old 0 (entries_of (rows (voice_of vocoder) cells.entry.marks.now cells.entry.room.now m b)) }
{
    let mut at: usize = 0;
    for k in 0..b {
        at = pour_row(vocoder, cells, m, k, out, at);
    }
}

// internal: a caller has judged the group.
// Pours a group of these numbers, types and cells. Its frames are EVRC, as yet of each.
pub fn pour_held_in(
    numbers: GroupNumbers,
    cells: Cells<'_>,
    out: &mut [u8],
) -> Result<usize, Refusal>
    requires { OfGroup holding_shape cells × (numbers.l ≤ 7) × (numbers.b ≤ 10) }
    ensures { Writes (octets (entries_of (rows (voice_with (rows_of Vocoder.Evrc)) cells.entry.marks.now cells.entry.room.now (numbers.l + 1) numbers.b)))
        out.old result out.new }
{
    let m = numbers.l as usize + 1;
    let b = numbers.b as usize;
    let size = pour_size(Vocoder::Evrc, cells.marks, m, b);
    if out.len() < size {
        return Err(Refusal::NoRoom);
    }
    pour_rows(Vocoder::Evrc, cells, m, b, out);
    Ok(size)
}

// internal: a caller has judged the holding.
// Pours a holding that holds a packet.
#[tactic(auto, unfolding(crate::specs::Pouring::in_time))]
pub fn pour_held(h: Holding, out: &mut [u8]) -> Result<usize, Refusal>
    requires { holds (voice_in h) h ≡ true }
    ensures { Writes (octets (entries_of (in_time (voice_in h) h))) out.old result out.new }
{
    pour_held_in(holding::numbers_of(h), h.parts().cells, out)
}

// Pours h into out: all its places in time order as recording entries.
#[tactic(auto, unfolding(crate::specs::Pouring::poured))]
pub fn pour(h: Holding, out: &mut [u8]) -> Result<usize, Refusal>
    ensures { Writes (poured (voice_in h) h) out.old result out.new }
{
    if !holding::holds_packet(h) {
        return Err(Refusal::NotApplicable);
    }
    pour_held(h, out)
}
