// Joining two holdings (document 01, "Session").
#![tactic(auto)]

ghost use Rattle.std.specs.Prelude.{◌≡◌, ◌<◌};
ghost use Rattle.bundle.specs.Bundles.{as_bundle};
ghost use Rattle.frame.specs.Shape.{packets_of, holding_shape, shape_of};
ghost use Rattle.octets.specs.Octets.{all_below};
ghost use Rattle.holding.specs.Group.{Spans, Spanning, voice_in};
ghost use Rattle.joining.specs.Joining.{same_group, meets, agree_of, agree, take_one, either, unnumbered, unnumbered_of, joined};

use answers::Refusal;
use bundle::Cells;
use frame::Vocoder;
use holding::{Group, Holding};

// Whether a and b are of one group.
#[tactic(auto, unfolding(crate::specs::Joining::same_group))]
fn same_group(a: Holding, b: Holding) -> bool
    ensures { result ≡ same_group a b }
{
    a.source == b.source && a.numbers == b.numbers
}

// Whether packet n, held in both, does not differ.
#[tactic(auto, unfolding(crate::specs::Joining::meets))]
fn meets(held: bool, p: Cells<'_>, other_held: bool, q: Cells<'_>) -> bool
    ensures { result ≡ meets held (as_bundle p.entry) other_held (as_bundle q.entry) }
{
    !held || !other_held || bundle::same_bundles(p, q)
}

// Whether packet n, held in both of two groups, does not differ.
#[tactic(auto, unfolding(crate::specs::Joining::agree_in))]
fn agree_in(vocoder: Vocoder, n: usize, a: Group<'_>, b: Group<'_>) -> bool
    requires { (n < packets_of (shape_of vocoder)) × Spanning (shape_of vocoder) a × Spanning (shape_of vocoder) b }
    ensures { result ≡ agree_of (shape_of vocoder) a.entry b.entry n }
{
    meets(
        a.held[n],
        holding::packet_of(vocoder, a.cells, n),
        b.held[n],
        holding::packet_of(vocoder, b.cells, n),
    )
}

// Two runs are calls of their own: with their turns written out where a holding lies, the compiler would take its arrays apart, and copy
// it piece by piece at each move.

// Whether no packet held in both of two groups differs.
#[inline(never)]
fn agrees(vocoder: Vocoder, a: Group<'_>, b: Group<'_>) -> bool
    requires { Spanning (shape_of vocoder) a × Spanning (shape_of vocoder) b }
    ensures { result ≡ all_below (agree_of (shape_of vocoder) a.entry b.entry) (packets_of (shape_of vocoder)) }
{
    (0..frame::packets_of(vocoder)).all(|n| agree_in(vocoder, n, a, b))
}

// Puts packet n of one group into another, if it is held there: their flags, types and cells.
fn take_one(
    vocoder: Vocoder,
    n: usize,
    held: &mut [bool],
    marks: &mut [u8],
    room: &mut [u8],
    from: Group<'_>,
)
    requires { (n < packets_of (shape_of vocoder))
        × Spans (shape_of vocoder) held.old marks.old room.old
        × Spanning (shape_of vocoder) from }
    ensures { unnumbered held.new marks.new room.new
        ≡ take_one (shape_of vocoder) (unnumbered held.old marks.old room.old) (unnumbered_of from.entry) n }
{
    if from.held[n] {
        let p = holding::packet_of(vocoder, from.cells, n);
        held[n] = true;
        octets::copy(marks, 10 * n, p.marks);
        octets::copy(room, p.room.len() * n, p.room);
    }
}

// Puts every packet that is held of one group into another.
#[inline(never)]
fn take_all(vocoder: Vocoder, held: &mut [bool], marks: &mut [u8], room: &mut [u8], from: Group<'_>)
    requires { Spans (shape_of vocoder) held.old marks.old room.old × Spanning (shape_of vocoder) from }
    ensures { unnumbered held.new marks.new room.new
        ≡ either (shape_of vocoder) (unnumbered held.old marks.old room.old) (unnumbered_of from.entry) }
{
    for n in 0..frame::packets_of(vocoder) {
        take_one(vocoder, n, held, marks, room, from);
    }
}

// Whether no packet held in both of two holdings differs. Their frames are EVRC, as yet of each.
#[tactic(auto, unfolding(crate::specs::Joining::agree, frame::specs::Shape::shape_of))]
fn holdings_agree(a: Holding, b: Holding) -> bool
    ensures { result ≡ agree holding_shape a b }
{
    agrees(Vocoder::Evrc, a.parts(), b.parts())
}

// a with every packet that b holds.
#[tactic(auto, unfolding(frame::specs::Shape::shape_of))]
fn either(a: Holding, b: Holding) -> Holding
    ensures { result ≡ either holding_shape a b }
{
    let mut all = a;
    take_all(
        Vocoder::Evrc,
        &mut all.held,
        &mut all.marks,
        &mut all.room,
        b.parts(),
    );
    all
}

// Every packet held in a or in b, where they are of one group and do not differ.
#[tactic(auto, unfolding(crate::specs::Joining::join_of, crate::specs::Joining::refused_join))]
pub fn join(a: Holding, b: Holding) -> Result<Holding, Refusal>
    ensures { result ≡ joined (voice_in a) a b }
{
    if !holding::holds_packet(a) || !holding::holds_packet(b) {
        return Err(Refusal::NotApplicable);
    }
    if !same_group(a, b) {
        return Err(Refusal::NotSameGroup);
    }
    if !holdings_agree(a, b) {
        return Err(Refusal::PacketDiffers);
    }
    Ok(either(a, b))
}
