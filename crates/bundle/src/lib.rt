// One packet's frames laid out (document 01, "Groups"): their types and bodies, whether they keep the rule, and whether they are the same.
#![tactic(auto)]

ghost use Rattle.std.specs.Prelude.{◌≡◌, ◌<◌, length};
ghost use Rattle.frame.specs.Shape.{room_of, holding_shape, shape_of, voice_of};
ghost use Rattle.bundle.specs.Bundles.{as_bundle, OfPacket, not_held, same_bundles, may_stand, frame_right, frames_right};

use frame::Vocoder;

// One packet's frames: frame k's type at marks[k] and its body at room[22 * k ..].
#[derive(Clone, Copy, Debug, PartialEq, Eq)]
pub struct Bundle {
    pub marks: [u8; 10],
    pub room: [u8; 220],
}

// Types and cells of a packet, wherever they lie: frame k's type at marks[k], and its body at the front of cell k of room.
#[derive(Clone, Copy)]
pub struct Cells<'a> {
    pub marks: &'a [u8],
    pub room: &'a [u8],
}

impl Bundle {
    // The types and cells of the packet.
    pub fn cells(&self) -> Cells<'_>
        ensures { as_bundle result ≡ self.now }
    {
        Cells {
            marks: &self.marks,
            room: &self.room,
        }
    }
}

// A packet that is not held: erasures, and room of zeros.
pub fn not_held() -> Bundle
    ensures { result ≡ not_held holding_shape }
{
    let marks = [14u8; 10];
    let room = [0u8; 220];
    Bundle { marks, room }
}

// Whether two packets have the same types and bodies.
#[tactic(auto, unfolding(crate::specs::Bundles::same_bundles))]
pub fn same_bundles(a: Cells<'_>, b: Cells<'_>) -> bool
    ensures { result ≡ same_bundles (as_bundle a.entry) (as_bundle b.entry) }
{
    octets::same(a.marks, b.marks) && octets::same(a.room, b.room)
}

// Whether a type may stand at frame k of a packet of b frames: any below b, an erasure from b on.
fn may_stand(b: u8, k: usize, mark: u8) -> bool
    ensures { result ≡ may_stand b k mark }
{
    k < b as usize || mark == 14
}

// internal: a caller has cut the ten marks and the cells of a packet.
// Whether a packet of a vocoder's frames reads as one that is not held.
pub fn is_not_held(vocoder: Vocoder, p: Cells<'_>) -> bool
    requires { length p.room.now ≡ room_of (shape_of vocoder) }
    ensures { result ≡ same_bundles (as_bundle p.entry) (not_held (shape_of vocoder)) }
{
    octets::same(p.marks, &[14; 10]) && octets::zeros(p.room)
}

// Whether frame k of a packet of b frames keeps the rule.
fn frame_right(vocoder: Vocoder, b: u8, p: Cells<'_>, k: usize) -> bool
    requires { (k < 10) × OfPacket (shape_of vocoder) p }
    ensures { result ≡ frame_right (voice_of vocoder) b (as_bundle p.entry) k }
{
    let mark = p.marks[k];
    let Some(row) = frame::row_of(vocoder, mark) else {
        return false;
    };
    let cell = frame::cell_of(vocoder);
    let from = cell * k;
    may_stand(b, k, mark) && octets::zeros(&p.room[from + row.octets..from + cell])
}

// internal: a caller has cut the ten marks and the cells of a packet.
// Whether every frame of a packet of b frames keeps the rule.
pub fn frames_right(vocoder: Vocoder, b: u8, p: Cells<'_>) -> bool
    requires { OfPacket (shape_of vocoder) p }
    ensures { result ≡ frames_right (voice_of vocoder) b (as_bundle p.entry) }
{
    (0..10).all(|k| frame_right(vocoder, b, p, k))
}
