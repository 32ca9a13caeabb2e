// Ways through a plan and their costs: what a way is, what the best cost between two pits is, and the theorems about them,
// for every lawful measure. The definitions are in specs/, the theorems stand on the contract of `way_cost`.
// Code that finds best ways is in other crates.
#![tactic(auto)]

ghost use Rattle.std.specs.Prelude.{◌≡◌, ◌<◌, ◌∷◌};
ghost use Rattle.measure.specs.Meaning.{read};
ghost use Rattle.plan.specs.Fields.{plan_of};
ghost use Rattle.ways.specs.Pits.{cost_of_pits, CostOfPits};
ghost use Rattle.ways.specs.Theorems.{BestCosts};
ghost use Rattle.ways.specs.Ways.{cost_of_duct};
ghost use Rattle.ways.specs.Worked.{Worked};

use measure::Measure;
use plan::ducts::Duct;
use plan::plans::Plan;

// The cost of the way by these pits, the first to the last; None where they are no way of the plan.
// What is proved of best costs in general stands here too.
pub fn way_cost<M: Measure>(plan: &Plan, pits: &[u16]) -> Option<u64>
    ensures answer { result ≡ cost_of_pits (read M.Measure.means) (plan_of plan.now) pits.now }
    ensures cost { CostOfPits (read M.Measure.means) (plan_of plan.now) pits.now result }
    ensures theorems { BestCosts (read M.Measure.means) }
    ensures worked { Worked }
{
    best_costs::<M>();
    cost_by::<M>(plan, pits)
}

// The cost of a duct.
pub fn duct_cost<M: Measure>(duct: Duct) -> u64
    ensures { result ≡ cost_of_duct (read M.Measure.means) duct }
{
    M::duct_cost(duct.length, duct.bore)
}

// Says what holds of best costs, and what they are in some small plans. Nothing is computed.
fn best_costs<M: Measure>()
    ensures theorems { BestCosts (read M.Measure.means) }
    ensures worked { Worked }
{}

// The cost by these pits, of which there may be none, or the first may be off the plan.
fn cost_by<M: Measure>(plan: &Plan, pits: &[u16]) -> Option<u64>
    ensures answer { result ≡ cost_of_pits (read M.Measure.means) (plan_of plan.now) pits.now }
    ensures cost { CostOfPits (read M.Measure.means) (plan_of plan.now) pits.now result }
{
    let (first, later) = pits.split_first()?;
    if *first >= plan.pit_count() {
        return None;
    }
    cost_from::<M>(plan, *first, later)
}

// The cost from a pit of the plan by the later pits. A `try_fold` would carry the pit and the cost as a pair.
fn cost_from<M: Measure>(plan: &Plan, first: u16, later: &[u16]) -> Option<u64>
    requires { first < (plan_of plan.now).pits }
    ensures { CostOfPits (read M.Measure.means) (plan_of plan.now) (first ∷ later.now) result }
{
    let mut here = first;
    let mut cost = M::STILL;
    for next in later {
        let duct = plan.duct_between(here, *next)?;
        cost = M::join(cost, duct_cost::<M>(duct));
        here = *next;
    }
    Some(cost)
}
