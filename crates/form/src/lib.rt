// The agreed form of a session and its maxima (document 01, "Payloads").
#![tactic(auto)]

ghost use Rattle.std.specs.Prelude.{◌≡◌};
ghost use Rattle.form.specs.Agreed.{opened, defaults};

use answers::Refusal;

// The agreed maxima: the greatest L and the greatest B.
#[derive(Clone, Copy, Debug, PartialEq, Eq)]
pub struct Limits {
    pub max_l: u8,
    pub max_b: u8,
}

impl Limits {
    // The maxima that are agreed where none are named.
    pub const MAX_L: u8 = 5;

    pub const MAX_B: u8 = 10;

    // The range of what may be agreed: L at most 0 to 7, B at most 1 to 10.
    pub const GREATEST_L: u8 = 7;

    pub const LEAST_B: u8 = 1;

    pub const GREATEST_B: u8 = 10;

    // Opens the named defaults, which are in range.
    pub fn agreed() -> Self
        ensures { result ≡ defaults }
    {
        Limits {
            max_l: Self::MAX_L,
            max_b: Self::MAX_B,
        }
    }

    // Opens limits: L at most 0 to 7 and B at most 1 to 10, or 21.
    pub fn open(max_l: u8, max_b: u8) -> Result<Limits, Refusal>
        ensures { result ≡ opened max_l max_b }
    {
        if Self::GREATEST_L < max_l || max_b < Self::LEAST_B || Self::GREATEST_B < max_b {
            return Err(Refusal::NotApplicable);
        }
        Ok(Limits { max_l, max_b })
    }
}

// The agreed form of a session: header-free, or interleaved with its maxima.
#[derive(Clone, Copy, Debug, PartialEq, Eq)]
pub enum Form {
    HeaderFree,
    Interleaved(Limits),
}
