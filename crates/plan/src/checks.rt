ghost use Rattle.std.specs.Prelude.{◌≡◌};
ghost use Rattle.plan.specs.Edits.{check_ends};
ghost use Rattle.plan.specs.Refusals.{heard};

use crate::refusals::Refusal;

// Question 5: are the two ends pits of a plan of so many pits, the first below the second?
pub fn check_ends(pits: u16, place: u16, first: u16, second: u16) -> Result<(), Refusal>
    ensures { heard result ≡ check_ends pits place first second }
{
    if first < second && second < pits {
        Ok(())
    } else {
        Err(Refusal::Ends { place })
    }
}
