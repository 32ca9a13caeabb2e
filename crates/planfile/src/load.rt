ghost use Rattle.std.specs.Prelude.{◌≡◌, MatchResult, Ok};
ghost use Rattle.plan.specs.Edits.{and_then};
ghost use Rattle.plan.specs.Fields.{plan_of, heard_plan};
ghost use Rattle.plan.specs.Refusals.{heard};
ghost use Rattle.planfile.specs.Files.{FileOf, NoFile};
ghost use Rattle.planfile.specs.Loading.{check_sizes, sizes_in, decode, load_on};

use crate::reader::Reader;
use plan::ducts::Duct;
use plan::limits::{MAX_DUCTS, MAX_PITS};
use plan::plans::Plan;
use plan::refusals::Refusal;

// The sizes that a file has first: its pit count and its duct count.
struct Sizes {
    pits: u16,
    count: u16,
}

// Questions 1 to 4 on the file as a whole: 4 bytes, the pit count, the duct count, the exact size.
fn check_sizes(bytes: &[u8]) -> Result<Sizes, Refusal>
    ensures { heard result ≡ and_then (check_sizes bytes.now) (Ok (sizes_in bytes.now)) }
{
    let [a, b, c, d, ..] = bytes else {
        return Err(Refusal::ShortFile);
    };
    let pits = u16::from_le_bytes([*a, *b]);
    let count = u16::from_le_bytes([*c, *d]);
    if !(1..=MAX_PITS).contains(&pits) {
        return Err(Refusal::PitCount);
    }
    if count as usize > MAX_DUCTS {
        return Err(Refusal::DuctCount);
    }
    if bytes.len() != 4 + 10 * count as usize {
        return Err(Refusal::FileSize);
    }
    Ok(Sizes { pits, count })
}

// The plan of a file, or the first rule that the file breaks: questions 1 to 4, then 5 to 8 on each duct in turn. The array is the
// plan's own, filled in place: no public call asks anything, so `Plan::push` is private. The earlier ducts are gone through by a
// loop in the loop, and by no `any`: the project asks for this form, left by a labelled break at the first repeat.
fn parse(bytes: &[u8]) -> Result<Plan, Refusal>
    ensures { heard_plan result ≡ decode bytes.now }
{
    let Sizes { pits, count } = check_sizes(bytes)?;
    let mut ducts = [Duct::UNUSED; MAX_DUCTS];
    'ducts: {
        for (place, duct) in (0..count).zip(Reader::open(bytes, count as usize)) {
            duct.check(pits, place)?;
            for earlier in &ducts[..place as usize] {
                if earlier.joins(duct.first, duct.second) {
                    break 'ducts Err(Refusal::Repeat { place });
                }
            }
            ducts[place as usize] = duct;
        }
        Ok(Plan { pits, count, ducts })
    }
}

// What `parse` gives. An accepted file is the file of the plan that it gives, byte by byte, and a refused one is the file
// of no plan.
fn read(bytes: &[u8]) -> Result<Plan, Refusal>
    ensures answer { heard_plan result ≡ decode bytes.now }
    ensures exact { MatchResult result (λ p. FileOf (plan_of p) bytes.now) (λ _. NoFile bytes.now) }
{
    parse(bytes)
}

// Loads a file: its plan becomes the plan that stands. A file that breaks a rule is refused with the first that it breaks,
// and the plan that stood stays. An accepted file is the file of its plan, byte by byte; a refused one is the file of no plan.
pub fn load(plan: &mut Plan, bytes: &[u8]) -> Result<(), Refusal>
    ensures answer { heard result ≡ (load_on bytes.now (plan_of plan.old)).answer }
    ensures stands { plan_of plan.new ≡ (load_on bytes.now (plan_of plan.old)).plan }
    ensures exact { MatchResult result (λ _. FileOf (plan_of plan.new) bytes.now) (λ _. NoFile bytes.now) }
{
    *plan = read(bytes)?;
    Ok(())
}
