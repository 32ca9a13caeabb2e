ghost use Rattle.std.specs.Prelude.{◌≡◌, ◌<◌, true, [], ◌∷◌, ◌++◌, length, is_some, IfOk, Ok};
ghost use Rattle.plan.specs.Ducts.{between, others};
ghost use Rattle.plan.specs.Edits.{check_duct, check_repeat, lay_on, lift_off, with_last, without, WithoutOne};
ghost use Rattle.plan.specs.Fields.{plan_of, heard_plan};
ghost use Rattle.plan.specs.Rules.{Rules};
ghost use Rattle.plan.specs.Refusals.{heard};

use crate::checks;
use crate::ducts::Duct;
use crate::limits::MAX_DUCTS;
use crate::plans::Plan;
use crate::refusals::Refusal;

impl Plan {
    // The plan with a duct laid last. The change is made in a copy, so a refused lay leaves this plan.
    pub fn lay(&self, duct: Duct) -> Result<Plan, Refusal>
        ensures { heard_plan result ≡ lay_on (plan_of self.now) duct }
    {
        duct.check(self.pits, 0)?;
        self.check_repeat(&duct)?;
        if self.ducts().len() >= MAX_DUCTS {
            return Err(Refusal::DuctCount);
        }
        Ok(self.with_last(duct))
    }

    // The plan without the duct between two ends: one duct is gone, and the others keep their order. A refused lift leaves
    // this plan too.
    pub fn lift(&self, first: u16, second: u16) -> Result<Plan, Refusal>
        ensures answer { heard_plan result ≡ lift_off (plan_of self.now) first second }
        ensures one { IfOk result (λ q. WithoutOne (plan_of self.now) first second (plan_of q)) }
    {
        checks::check_ends(self.pits, 0, first, second)?;
        if self.duct_between(first, second).is_none() {
            return Err(Refusal::NoDuct);
        }
        Ok(self.without(first, second))
    }

    // Question 8 on a duct that is to be laid: does no duct of the plan join the same two pits?
    fn check_repeat(&self, duct: &Duct) -> Result<(), Refusal>
        ensures { heard result ≡ check_repeat (plan_of self.now).ducts 0 duct.now }
    {
        if self.duct_between(duct.first, duct.second).is_some() {
            Err(Refusal::Repeat { place: 0 })
        } else {
            Ok(())
        }
    }

    // A copy of the plan with a checked duct laid last.
    fn with_last(&self, duct: Duct) -> Plan
        requires own { check_duct (plan_of self.now).pits 0 duct ≡ Ok tt }
        requires new { check_repeat (plan_of self.now).ducts 0 duct ≡ Ok tt }
        requires room { length (plan_of self.now).ducts < 1024 }
        ensures { plan_of result ≡ with_last (plan_of self.now) duct }
    {
        let mut plan = *self;
        plan.push(duct);
        plan
    }

    // Lays a duct last that keeps the rules.
    fn push(&mut self, duct: Duct)
        requires room { length (plan_of self.old).ducts < 1024 }
        requires rules { Rules (with_last (plan_of self.old) duct) }
        ensures { plan_of self.new ≡ with_last (plan_of self.old) duct }
    {
        self.ducts[self.count as usize] = duct;
        self.count += 1;
    }

    // A copy of the plan with no ducts.
    fn without_ducts(&self) -> Plan
        ensures { plan_of result ≡ record (plan_of self.now) { ducts = [] } }
    {
        let mut plan = *self;
        plan.count = 0;
        plan
    }

    // A copy of the plan without the duct between two pits: the others are laid again, one by one.
    fn without(&self, a: u16, b: u16) -> Plan
        requires { is_some (between (plan_of self.now).ducts a b) ≡ true }
        ensures plan { plan_of result ≡ without (plan_of self.now) a b }
        ensures one { WithoutOne (plan_of self.now) a b (plan_of result) }
    {
        let mut plan = self.without_ducts();
        for duct in self.ducts() {
            if !duct.joins(a, b) {
                plan.push(*duct);
            }
        }
        plan
    }
}
