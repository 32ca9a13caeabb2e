// A cost trial: a plan searched, and the costs compared with those of NetworkX. The ways are written out and costed too.
ghost use Rattle.std.specs.Prelude.{◌≤◌, length, IfSome};

use measure::{Bore, Length, Measure};
use plan::plans::Plan;
use plan::refusals::Refusal;
use search::indexed::IndexedPlan;
use search::marks::PLACES;
use search::searching;
use search::table::Table;
use std::marker::PhantomData;
use trial_parts::count::Count;
use trial_parts::input::TrialInput;
use trial_parts::plans::loaded;
use trial_parts::trials::Trial;
use ways::way_cost;

pub(crate) struct CostTrial;

// What stands for "no way" among the costs.
const NO_WAY: u32 = u32::MAX;

// The cost in 4 bytes, None for "no way".
fn cost_in(bytes: [u8; 4]) -> Option<u32> {
    match u32::from_le_bytes(bytes) {
        NO_WAY => None,
        cost => Some(cost),
    }
}

// A search that was made by a measure: the plan, the goal, and the table that it filled. The table is lent, since a copy of it for
// each search takes longer than the search of a small plan.
#[derive(Drop)]
struct Searched<'a, M> {
    plan: &'a Plan,
    goal: u16,
    table: &'a Table,
    measure: PhantomData<M>,
}

impl<'a, M: Measure> Searched<'a, M> {
    // Searches a plan for the ways to a goal.
    fn new(
        indexed: &'a IndexedPlan,
        allowed: &[bool],
        goal: u16,
        table: &'a mut Table,
    ) -> Option<Self> {
        searching::search::<M>(indexed, allowed, goal, table).ok()?;
        Some(Searched {
            plan: &indexed.plan,
            goal,
            table,
            measure: PhantomData,
        })
    }

    // Whether the way from a pit runs to the goal at this cost.
    fn way_holds(&self, pit: u16, cost: u64) -> bool {
        let mut list = [0u16; PLACES];
        let Ok(count) = self.table.write_way(pit, &mut list) else {
            return false;
        };
        list.get(..count).is_some_and(|way| {
            way.first() == Some(&pit)
                && way.last() == Some(&self.goal)
                && way_cost::<M>(self.plan, way) == Some(cost)
        })
    }

    // Whether the table says of a pit what the trial says.
    fn agrees(&self, pit: u16, expected: Option<u32>) -> bool {
        match (self.table.cost(pit), expected) {
            (Ok(cost), Some(expected)) => cost == u64::from(expected) && self.way_holds(pit, cost),
            (Err(Refusal::NoWay), None) => true,
            _ => false,
        }
    }
}

// Searches for one goal, and compares the cost from each pit.
fn try_goal<M: Measure>(
    indexed: &IndexedPlan,
    allowed: &[bool],
    goal: u16,
    costs: &[u8],
) -> Option<Count>
    ensures { IfSome result (λ count. count.agreed ≤ count.tried) }
{
    let pits = indexed.plan.pit_count();
    let mut table = Table::new();
    let searched = Searched::<M>::new(indexed, allowed, goal, &mut table)?;
    let (costs, _) = costs.as_chunks();
    let agreed = (0..pits)
        .zip(costs)
        .filter(|(pit, cost)| searched.agrees(*pit, cost_in(**cost)))
        .count();
    Some(Count {
        tried: usize::from(pits),
        agreed,
    })
}

// A question: which pits are allowed, a byte for each; the goal; and the cost from each pit by length, and by bore.
#[derive(Clone, Copy)]
struct Question<'a> {
    allowed: &'a [u8],
    goal: u16,
    lengths: &'a [u8],
    bores: &'a [u8],
}

// The next question to a plan of so many pits.
fn read_question<'a>(input: &mut TrialInput<'a>, pits: u16) -> Option<Question<'a>>
    ensures { length input.new ≤ length input.old }
{
    let pits = usize::from(pits);
    let allowed = input.bytes(pits)?;
    let goal = input.number()?;
    let lengths = input.bytes(4 * pits)?;
    let bores = input.bytes(4 * pits)?;
    Some(Question {
        allowed,
        goal: u16::try_from(goal).ok()?,
        lengths,
        bores,
    })
}

// Asks one question, by both measures.
fn try_question(indexed: &IndexedPlan, question: Question<'_>) -> Option<Count>
    ensures { IfSome result (λ count. count.agreed ≤ count.tried) }
{
    let mut allowed = [false; PLACES];
    for (place, flag) in allowed.iter_mut().zip(question.allowed) {
        *place = *flag == 1;
    }
    let mut count = try_goal::<Length>(indexed, &allowed, question.goal, question.lengths)?;
    count += try_goal::<Bore>(indexed, &allowed, question.goal, question.bores)?;
    Some(count)
}

impl Trial for CostTrial {
    // no more costs agree than were compared
    ghost run_gives = { λ _ r _. IfSome r (λ count. count.agreed ≤ count.tried) };

    fn run(input: &mut TrialInput<'_>) -> Option<Count> {
        let plan = loaded(input.file()?).ok()?;
        let questions = input.number()?;
        let indexed = IndexedPlan::new(&plan);
        let mut total = Count::default();
        for _ in 0..questions {
            let question = read_question(input, plan.pit_count())?;
            total += try_question(&indexed, question)?;
        }
        Some(total)
    }
}
