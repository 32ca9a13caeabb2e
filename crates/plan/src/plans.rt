ghost use Rattle.std.specs.Prelude.{◌≡◌, ◌≤◌, length, take};
ghost use Rattle.plan.specs.Ducts.{between};
ghost use Rattle.plan.specs.Rules.{Rules};

use crate::ducts::Duct;
use crate::limits::MAX_DUCTS;

// A plan: how many pits there are, numbered from 0, and the ducts that join them.
// The first `count` places of `ducts` are the plan's, in their order; the other places mean nothing.
// The array has a count beside it since a plan is copied by value. A plan has no model: that of a `Copy` type would fix what the
// other places hold, and ask this of whoever builds a plan.
// Every value of this type keeps the rules of a plan. The blank plan, which stands before the first load, has no pits
// and no ducts.
#[derive(Clone, Copy)]
pub struct Plan {
    pub pits: u16,
    pub count: u16,
    pub ducts: [Duct; MAX_DUCTS],
    ghost few: { count ≤ 1024 },
    ghost places: { length ducts ≡ 1024 },
    ghost rules: { Rules (record { pits = pits; ducts = take count ducts }) },
}

impl Plan {
    ghost use Rattle.plan.specs.Plans.{blank_plan};
    ghost use Rattle.plan.specs.Fields.{plan_of};

    // The blank plan: no pits, no ducts.
    pub fn blank() -> Plan
        ensures { plan_of result ≡ blank_plan }
    {
        Plan {
            pits: 0,
            count: 0,
            ducts: [Duct::UNUSED; MAX_DUCTS],
        }
    }

    // How many pits the plan has.
    pub fn pit_count(&self) -> u16
        ensures { result ≡ (plan_of self.now).pits }
    {
        self.pits
    }

    // The plan's ducts in their order. Every plan keeps the rules.
    pub fn ducts(&self) -> &[Duct]
        ensures list { result.now ≡ (plan_of self.now).ducts }
        ensures rules { Rules (plan_of self.now) }
    {
        &self.ducts[0..self.count as usize]
    }

    // The duct between two pits, if there is one.
    pub fn duct_between(&self, a: u16, b: u16) -> Option<Duct>
        ensures { result ≡ between (plan_of self.now).ducts a b }
    {
        find(self.ducts(), a, b)
    }
}

// The first of the ducts that joins two pits.
fn find(ducts: &[Duct], a: u16, b: u16) -> Option<Duct>
    ensures { result ≡ between ducts.now a b }
{
    ducts.iter().find(|duct| duct.joins(a, b)).copied()
}
