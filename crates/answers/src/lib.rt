// Answers (document 01, "Answers by number"): the refusals. A call answers `Result<.., Refusal>`: one that writes, how many octets.
#![tactic(auto)]

ghost use Rattle.std.specs.Prelude.{◌≡◌};
ghost use Rattle.answers.specs.Answers.{number_of, place_of};

// The refusals, each by the number that document 01 or 02 gives it. Those of which document 02, (i), asks it carry the octet place of the
// fault.
#[derive(Clone, Copy, Debug, PartialEq, Eq)]
pub enum Refusal {
    NoOctet,
    IndexPastLength,
    LengthPastMaximum,
    // The payload's length.
    TableCut(usize),
    // The entry's place.
    ReservedType(usize),
    // The place of the first entry past the agreed maximum B.
    TooManyFrames(usize),
    // In writing, B is 0 or above the agreed maximum: 6 as well, and no octet is at fault.
    BundleOutOfRange,
    // The place of the first body that doesn't fit whole.
    BodiesCut(usize),
    // The first octet left over.
    OctetsLeft(usize),
    HeaderFreeLength,
    AnotherSource,
    ContradictsGroup,
    LaterGroup,
    EarlierGroup,
    PacketDiffers,
    NoRoom,
    TooFarAhead,
    NotSendable,
    WrongOpening,
    // The place of the entry octet.
    BodyCut(usize),
    NotSameGroup,
    NotApplicable,
    // The clock stands between two frames (02, ii).
    OffTheClock,
}

impl Refusal {
    // The number that document 01 or 02 gives the refusal.
    pub fn number(self) -> u8
        ensures { result ≡ number_of self }
    {
        match self {
            Refusal::NoOctet => 1,
            Refusal::IndexPastLength => 2,
            Refusal::LengthPastMaximum => 3,
            Refusal::TableCut(_) => 4,
            Refusal::ReservedType(_) => 5,
            Refusal::TooManyFrames(_) | Refusal::BundleOutOfRange => 6,
            Refusal::BodiesCut(_) => 7,
            Refusal::OctetsLeft(_) => 8,
            Refusal::HeaderFreeLength => 9,
            Refusal::AnotherSource => 10,
            Refusal::ContradictsGroup => 11,
            Refusal::LaterGroup => 12,
            Refusal::EarlierGroup => 13,
            Refusal::PacketDiffers => 14,
            Refusal::NoRoom => 15,
            Refusal::TooFarAhead => 16,
            Refusal::NotSendable => 17,
            Refusal::WrongOpening => 18,
            Refusal::BodyCut(_) => 19,
            Refusal::NotSameGroup => 20,
            Refusal::NotApplicable => 21,
            Refusal::OffTheClock => 24,
        }
    }

    // The octet place that the refusal carries, counted from 0, if it has one.
    pub fn place(self) -> Option<usize>
        ensures { result ≡ place_of self }
    {
        match self {
            Refusal::TableCut(at)
            | Refusal::ReservedType(at)
            | Refusal::TooManyFrames(at)
            | Refusal::BodiesCut(at)
            | Refusal::OctetsLeft(at)
            | Refusal::BodyCut(at) => Some(at),
            _ => None,
        }
    }
}
