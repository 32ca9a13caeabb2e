// A file trial: a plan file, good or damaged, and what the model says of it.
ghost use Rattle.std.specs.Prelude.{◌≡◌, ◌≤◌, length, IfSome};

use plan::ducts::Duct;
use plan::plans::Plan;
use plan::refusals::{Figures, Refusal};
use planfile::{load, save};
use trial_parts::count::Count;
use trial_parts::input::TrialInput;
use trial_parts::trials::Trial;

pub(crate) struct FileTrial;

// Why a file is refused: the number and the two figures.
#[derive(Clone, Copy, PartialEq, Eq)]
struct Told {
    number: u32,
    figures: Figures,
}

impl From<Refusal> for Told {
    fn from(refusal: Refusal) -> Told {
        Told {
            number: u32::from(refusal.number()),
            figures: refusal.figures(),
        }
    }
}

// The model's answer to a load: a number, 0 where the file is accepted, and two figures.
fn read_answer(input: &mut TrialInput<'_>) -> Option<Result<(), Told>>
    ensures { length input.new ≤ length input.old }
{
    let number = input.number()?;
    let first = input.number()?;
    let second = input.number()?;
    Some(match number {
        0 => Ok(()),
        _ => Err(Told {
            number,
            figures: Figures { first, second },
        }),
    })
}

// A duct in four numbers: its ends, its length and its bore, if they fit.
fn read_duct(input: &mut TrialInput<'_>) -> Option<Duct>
    ensures { length input.new ≤ length input.old }
{
    let first = input.number()?;
    let second = input.number()?;
    let length = input.number()?;
    let bore = input.number()?;
    Some(Duct {
        first: u16::try_from(first).ok()?,
        second: u16::try_from(second).ok()?,
        length,
        bore: u16::try_from(bore).ok()?,
    })
}

// Whether an accepted plan has the pits and the ducts that the model read. A closure that reads the input on would change what it
// captures, so the ducts are gone through by a loop.
fn same_plan(plan: &Plan, input: &mut TrialInput<'_>) -> Option<bool>
    ensures { length input.new ≤ length input.old }
{
    let pits = input.number()?;
    let count = input.number()?;
    let mut same = u32::from(plan.pit_count()) == pits && plan.ducts().len() == count as usize;
    for duct in plan.ducts() {
        let expected = read_duct(input)?;
        same = same && *duct == expected;
    }
    Some(same)
}

// Whether the plan saves as the file that it was loaded from.
fn saves_as(plan: &Plan, file: &[u8]) -> bool {
    let mut buffer = [0u8; save::MAX_SIZE];
    save::save(plan, &mut buffer).is_ok_and(|size| &buffer[0..size] == file)
}

// Loads the file over the blank plan, and compares the answer with the model's. A refused file has to leave the blank plan.
impl Trial for FileTrial {
    // one file is tried
    ghost run_gives = { λ _ r _. IfSome r (λ count. (count.tried ≡ 1) × (count.agreed ≤ 1)) };

    fn run(input: &mut TrialInput<'_>) -> Option<Count> {
        let file = input.file()?;
        let expected = read_answer(input)?;
        let mut plan = Plan::blank();
        let answer = load::load(&mut plan, file).map_err(Told::from);
        let same = match answer {
            Ok(()) => same_plan(&plan, input)? && saves_as(&plan, file),
            Err(_) => plan.pit_count() == 0 && plan.ducts().is_empty(),
        };
        Some(Count {
            tried: 1,
            agreed: usize::from(same && answer == expected),
        })
    }
}
