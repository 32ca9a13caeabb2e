// The table of a search, and what it answers.
ghost use Rattle.std.specs.Prelude.{◌≡◌, ◌<◌, ◌≤◌, true, [], ◌++◌, length, take, drop, MatchOption};
ghost use Rattle.plan.specs.Refusals.{heard};
ghost use Rattle.search.specs.declared.marks.Mark.TheVariants.{Settled};
ghost use Rattle.search.specs.Marks.{at, is_settled, route_at, route, Linked, Brief, Follows};

use crate::marks::{Mark, PLACES, SeenPit};
use plan::refusals::Refusal;

// A mark for each pit of the plan that was searched. The first `pits` places are the plan's; no heap, so there is a place for
// each pit of the largest plan. A table has no model, since a clause of `search` speaks of its later places.
#[derive(Clone, Copy)]
pub struct Table {
    pub(crate) pits: u16,
    pub(crate) marks: [Mark; PLACES],
    // the next pit of each pit that was reached, once more: a step along a way reads it here, and matches no mark
    pub(crate) next_pits: [u16; PLACES],
    ghost few: { pits ≤ 512 },
    ghost places: { length marks ≡ 512 },
    ghost next_places: { length next_pits ≡ 512 },
    ghost linked: { Linked (take pits marks) },
    ghost brief: { Brief (take pits marks) },
    ghost follows: { Follows (take pits marks) next_pits },
}

impl Table {
    ghost use Rattle.search.specs.Searched.{marks_of, cost_in, way_in, wrote_way};

    // A table before any search: it has no pits.
    pub fn new() -> Table
        ensures { marks_of result ≡ [] }
    {
        Table {
            pits: 0,
            marks: [Mark::Unseen; PLACES],
            next_pits: [0; PLACES],
        }
    }

    // The best cost from a pit to the goal. A pit off the plan is refused with 11, one that was not reached with 13.
    pub fn cost(&self, pit: u16) -> Result<u64, Refusal>
        ensures { heard result ≡ cost_in (marks_of self.now) pit }
    {
        match self.mark(pit) {
            None => Err(Refusal::OffPlan),
            Some(Mark::Settled(route)) => Ok(route.cost),
            Some(Mark::Unseen | Mark::Open(_)) => Err(Refusal::NoWay),
        }
    }

    // Writes the way from a pit to the goal at the front of the list, and gives the number of its pits; later places stay. A
    // pit off the plan is refused with 11, a list with fewer places than the plan has pits with 12, a pit that was not reached
    // with 13, and then nothing is written.
    pub fn write_way(&self, pit: u16, list: &mut [u16]) -> Result<usize, Refusal>
        ensures answer { heard result ≡ way_in (marks_of self.now) pit (length list.old) }
        ensures list { list.new ≡ wrote_way (heard result) (route (marks_of self.now) pit) list.old }
    {
        let Some(mark) = self.mark(pit) else {
            return Err(Refusal::OffPlan);
        };
        if list.len() < self.marks().len() {
            return Err(Refusal::ShortList);
        }
        match mark {
            Mark::Settled(route) => Ok(self.write(SeenPit { pit, route }, list)),
            Mark::Unseen | Mark::Open(_) => Err(Refusal::NoWay),
        }
    }

    // Writes the way from a pit that was reached at the front of the list, and gives the number of its pits.
    fn write(&self, from: SeenPit, list: &mut [u16]) -> usize
        requires reached { at (marks_of self.now) from.pit ≡ Settled from.route }
        requires room { length (marks_of self.now) ≤ length list.old }
        ensures count { result ≡ length (route (marks_of self.now) from.pit) }
        ensures list { list.new ≡ route (marks_of self.now) from.pit ++ drop result list.old }
    {
        let count = from.route.hops as usize + 1;
        let mut here = from.pit;
        for place in &mut list[..count] {
            *place = here;
            here = self.next_after(here);
        }
        count
    }

    // The next pit on the way from a pit that was reached.
    fn next_after(&self, here: u16) -> u16
        requires { is_settled (at (marks_of self.now) here) ≡ true }
        ensures { result ≡ (route_at (marks_of self.now) here).next }
    {
        // a pit that was reached has its place, so nothing is tested at each step
        self.next_pits[here as usize]
    }

    // The mark of a pit, if it is on the plan.
    fn mark(&self, pit: u16) -> Option<Mark>
        ensures { MatchOption result (length (marks_of self.now) ≤ pit) (λ mark. (pit < length (marks_of self.now)) × (mark ≡ at (marks_of self.now) pit)) }
    {
        self.marks().get(pit as usize).copied()
    }

    // The marks of the plan's pits.
    fn marks(&self) -> &[Mark]
        ensures { result.now ≡ marks_of self.now }
    {
        &self.marks[..self.pits as usize]
    }
}
