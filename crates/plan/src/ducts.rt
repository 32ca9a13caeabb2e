ghost use Rattle.std.specs.Prelude.{◌≡◌, Some};
ghost use Rattle.plan.specs.Ducts.{joins, duct_text};
ghost use Rattle.plan.specs.Edits.{check_duct};
ghost use Rattle.plan.specs.Refusals.{heard};

use crate::checks::check_ends;
use crate::limits::{MAX_BORE, MAX_LENGTH, MIN_BORE};
use crate::refusals::Refusal;
use std::fmt;

// A duct: the pipe between two pits that a cable is drawn through.
#[derive(Clone, Copy, PartialEq, Eq, Debug)]
pub struct Duct {
    // the pits at its two ends; in a plan the first is the lower number
    pub first: u16,
    pub second: u16,
    // in centimetres
    pub length: u32,
    // the inner width, in millimetres
    pub bore: u16,
}

impl Duct {
    // What stands in a place of an array that holds no duct, which a `default()` would not say.
    pub const UNUSED: Duct = Duct {
        first: 0,
        second: 0,
        length: 0,
        bore: 0,
    };

    // Whether the duct joins the pits `a` and `b`, either way round. A pair of pits is no type: the rules name two pits.
    pub fn joins(&self, a: u16, b: u16) -> bool
        ensures { result ≡ joins self.now a b }
    {
        (self.first == a && self.second == b) || (self.first == b && self.second == a)
    }

    // Questions 5 to 7 on a duct of a plan of so many pits: its ends, its length, its bore.
    pub fn check(&self, pits: u16, place: u16) -> Result<(), Refusal>
        ensures { heard result ≡ check_duct pits place self.now }
    {
        check_ends(pits, place, self.first, self.second)?;
        if !(1..=MAX_LENGTH).contains(&self.length) {
            return Err(Refusal::Length { place });
        }
        if !(MIN_BORE..=MAX_BORE).contains(&self.bore) {
            return Err(Refusal::Bore { place });
        }
        Ok(())
    }
}

// A duct is printed with its ends, its length and its bore.
impl fmt::Display for Duct {
    ghost output = { λ duct. Some (duct_text duct) };

    fn fmt<W: fmt::Write>(&self, f: &mut fmt::Formatter<W>) -> fmt::Result {
        let Duct {
            first,
            second,
            length,
            bore,
        } = *self;
        write!(f, "{first}-{second}, {length} cm, {bore} mm")
    }
}
