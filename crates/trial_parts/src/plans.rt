ghost use Rattle.std.specs.Prelude.{◌≡◌};
ghost use Rattle.plan.specs.Fields.{heard_plan};
ghost use Rattle.planfile.specs.Loading.{decode};

use plan::plans::Plan;
use plan::refusals::Refusal;
use planfile::load;

// The plan of a file, or the first rule that the file breaks.
pub fn loaded(bytes: &[u8]) -> Result<Plan, Refusal>
    ensures { heard_plan result ≡ decode bytes.now }
{
    let mut plan = Plan::blank();
    load::load(&mut plan, bytes)?;
    Ok(plan)
}
