// One turn of a search: a pit is settled, and its ducts are relaxed.
ghost use Rattle.std.specs.Prelude.{◌≡◌, ◌<◌, length};
ghost use Rattle.measure.specs.Meaning.{read};
ghost use Rattle.search.specs.Searched.{plan_in};
ghost use Rattle.search.specs.Steps.{Within, route_by, far_end, relax, relax_down, turned};

use crate::allowed::AllowedPlan;
use crate::marks::{Mark, Route, SeenPit};
use crate::running::Running;
use measure::Measure;
use plan::ducts::Duct;
use ways::duct_cost;

// What stays as it is while a pit has its turn: the plan, and the pit with its way.
#[derive(Clone, Copy)]
pub(crate) struct Turn<'a> {
    plan: &'a AllowedPlan<'a>,
    from: SeenPit,
    ghost room: { from.route.hops < 512 },
}

impl<M: Measure> Running<'_, M> {
    // The turn of an open pit.
    #[tactic(auto, unfolding(crate::specs::Steps::turned))]
    pub(crate) fn turn(&mut self, plan: &AllowedPlan, from: SeenPit)
        requires size { length self.old.marks.now ≡ (plan_in plan.now.indexed.now).pits }
        requires below { from.pit < length self.old.marks.now }
        requires room { from.route.hops < 512 }
        ensures same_reference { self.new.marks.ghost_name ≡ self.old.marks.ghost_name }
        ensures marks { self.new.marks.now ≡ turned (read M.Measure.means) plan.now.allowed.now (plan_in plan.now.indexed.now).ducts from self.old.marks.now }
    {
        self.put(from.pit, Mark::Settled(from.route));
        self.relax_ducts(&Turn { plan, from });
    }

    // Relaxes the ducts of the pit, which was settled, from the last to the first, by the index.
    fn relax_ducts(&mut self, turn: &Turn)
        requires size { length self.old.marks.now ≡ (plan_in turn.now.plan.now.indexed.now).pits }
        requires below { turn.now.from.pit < length self.old.marks.now }
        ensures same_reference { self.new.marks.ghost_name ≡ self.old.marks.ghost_name }
        ensures marks { self.new.marks.now ≡ relax_down (read M.Measure.means) turn.now.plan.now.allowed.now turn.now.from (plan_in turn.now.plan.now.indexed.now).ducts (length (plan_in turn.now.plan.now.indexed.now).ducts) self.old.marks.now }
    {
        let indexed = turn.plan.indexed;
        let ducts = indexed.plan.ducts();
        let mut next = indexed.index.heads[turn.from.pit as usize];
        while let Some(place) = next {
            let duct = ducts[place as usize];
            self.relax(turn, duct);
            next = indexed.index.links[place as usize].before(duct, turn.from.pit);
        }
    }

    // If the duct may be used and has the pit as an end, the pit at its far end gets a mark with the way through the duct,
    // unless it has a mark that is no worse.
    #[tactic(auto, unfolding(crate::specs::Steps::relax))]
    fn relax(&mut self, turn: &Turn, duct: Duct)
        requires { Within (length self.old.marks.now) duct }
        ensures same_reference { self.new.marks.ghost_name ≡ self.old.marks.ghost_name }
        ensures marks { self.new.marks.now ≡ relax (read M.Measure.means) turn.now.plan.now.allowed.now turn.now.from duct self.old.marks.now }
    {
        if !turn.plan.may_use(duct) {
            return;
        }
        if let Some(other) = far_end(duct, turn.from.pit) {
            self.offer(other, turn.route_by::<M>(duct));
        }
    }
}

impl Turn<'_> {
    // The way by the duct to the pit, and on from there.
    fn route_by<M: Measure>(&self, duct: Duct) -> Route
        ensures { result ≡ route_by (read M.Measure.means) self.now.from duct }
    {
        Route {
            cost: M::join(duct_cost::<M>(duct), self.from.route.cost),
            next: self.from.pit,
            hops: self.from.route.hops + 1,
        }
    }
}

// The other end of a duct, where `pit` is one of its ends.
fn far_end(duct: Duct, pit: u16) -> Option<u16>
    ensures { result ≡ far_end duct pit }
{
    if duct.first == pit {
        Some(duct.second)
    } else if duct.second == pit {
        Some(duct.first)
    } else {
        None
    }
}
