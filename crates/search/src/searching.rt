// The search itself.
ghost use Rattle.std.specs.Prelude.{◌≡◌, ◌<◌, ◌≤◌, true, length, drop, MatchResult};
ghost use Rattle.measure.specs.Meaning.{read};
ghost use Rattle.plan.specs.Refusals.{heard};
ghost use Rattle.ways.specs.Theorems.{BestCosts};
ghost use Rattle.search.specs.Allowed.{is_allowed};
ghost use Rattle.search.specs.Marks.{Follows};
ghost use Rattle.search.specs.Searched.{plan_in, marks_of, Searched, Filled, check_goal};
ghost use Rattle.search.specs.Steps.{goal_route};

use crate::allowed::AllowedPlan;
use crate::indexed::IndexedPlan;
use crate::marks::{Mark, Route, put_next_pits};
use crate::running::Running;
use crate::table::Table;
use measure::Measure;
use plan::refusals::Refusal;

// Searches a plan for the best ways to the pit `goal` through allowed pits alone; the place of a pit in `allowed` says whether
// it is, and past the end none is. Afterwards the table holds the best cost from each pit that such a way joins to the goal, and a
// written way of that cost; the other pits it does not reach. A goal that is off the plan is refused with 11, and the table stays.
// Places of the table that the plan does not need stay too. What is proved of best costs in general stands here too.
// The plan, the allowed pits and the goal are what a caller names, so they are no struct.
pub fn search<M: Measure>(
    indexed: &IndexedPlan,
    allowed: &[bool],
    goal: u16,
    table: &mut Table,
) -> Result<(), Refusal>
    ensures answer { heard result ≡ check_goal (plan_in indexed.now) goal }
    ensures table { MatchResult result (λ _. Searched (read M.Measure.means) allowed.now (plan_in indexed.now) goal (marks_of table.new)) (λ _. table.new ≡ table.old) }
    ensures later { drop (plan_in indexed.now).pits table.new.marks ≡ drop (plan_in indexed.now).pits table.old.marks }
    ensures later_next_pits { drop (plan_in indexed.now).pits table.new.next_pits ≡ drop (plan_in indexed.now).pits table.old.next_pits }
    ensures theorems { BestCosts (read M.Measure.means) }
{
    if goal >= indexed.plan.pit_count() {
        return Err(Refusal::OffPlan);
    }
    run::<M>(&AllowedPlan { indexed, allowed }, goal, table);
    Ok(())
}

// The search for a goal that is on the plan, in the places of the table that the plan needs.
fn run<M: Measure>(plan: &AllowedPlan, goal: u16, table: &mut Table)
    requires { goal < (plan_in plan.now.indexed.now).pits }
    ensures searched { Searched (read M.Measure.means) plan.now.allowed.now (plan_in plan.now.indexed.now) goal (marks_of table.new) }
    ensures later { drop (plan_in plan.now.indexed.now).pits table.new.marks ≡ drop (plan_in plan.now.indexed.now).pits table.old.marks }
    ensures later_next_pits { drop (plan_in plan.now.indexed.now).pits table.new.next_pits ≡ drop (plan_in plan.now.indexed.now).pits table.old.next_pits }
{
    let pits = plan.indexed.plan.pits;
    table.pits = pits;
    // `0..pits` and not `..pits`, which Rattle's borrow checker does not cover here
    fill::<M>(
        plan,
        goal,
        &mut table.marks[0..pits as usize],
        &mut table.next_pits[0..pits as usize],
    );
}

// Fills the marks, one for each pit, and puts the next pit of each pit that is reached into the second list.
fn fill<M: Measure>(plan: &AllowedPlan, goal: u16, marks: &mut [Mark], next_pits: &mut [u16])
    requires size { length marks.old ≡ (plan_in plan.now.indexed.now).pits }
    requires below { goal < length marks.old }
    requires room { length marks.old ≤ length next_pits.old }
    ensures filled { Filled (read M.Measure.means) plan.now.allowed.now (plan_in plan.now.indexed.now) goal marks.new }
    ensures follows { Follows marks.new next_pits.new }
{
    // asked first: a frontier takes longer to make than the marks of a few pits
    if !plan.is_allowed(goal) {
        marks.fill(Mark::Unseen);
        return;
    }
    settle_all::<M>(plan, goal, marks);
    put_next_pits(marks, next_pits);
}

// Opens the goal, and then the best open pit has its turn until none is open.
fn settle_all<M: Measure>(plan: &AllowedPlan, goal: u16, marks: &mut [Mark])
    requires size { length marks.old ≡ (plan_in plan.now.indexed.now).pits }
    requires below { goal < length marks.old }
    requires allowed { is_allowed plan.now.allowed.now goal ≡ true }
    ensures { Filled (read M.Measure.means) plan.now.allowed.now (plan_in plan.now.indexed.now) goal marks.new }
{
    let mut running = Running::<M>::new(marks);
    running.put(goal, Mark::Open(goal_route::<M>(goal)));
    while let Some(from) = running.best() {
        running.turn(plan, from);
    }
}

// The way of the goal: it stands still.
fn goal_route<M: Measure>(goal: u16) -> Route
    ensures { result ≡ goal_route (read M.Measure.means) goal }
{
    Route {
        cost: M::STILL,
        next: goal,
        hops: 0,
    }
}
