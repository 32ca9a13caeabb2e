ghost use Rattle.std.specs.Prelude.{◌≡◌, ◌+◌, ◌-◌, ◌^◌, ◌↔◌, IsTrue, Some, min};
ghost use Rattle.trial_parts.specs.Counts.{count_text};

use std::fmt;
use std::ops::AddAssign;

// How many comparisons were made, and how many of them agreed.
#[derive(Clone, Copy, PartialEq, Eq, Debug, Default)]
pub struct Count {
    pub tried: usize,
    pub agreed: usize,
}

impl Count {
    // Whether every comparison agreed.
    pub fn all_agree(self) -> bool
        ensures { IsTrue result ↔ (self.agreed ≡ self.tried) }
    {
        self.agreed == self.tried
    }
}

// The comparisons of both, each count at most the greatest that a usize holds.
impl AddAssign for Count {
    ghost add_assign_gives = { λ old more new. new ≡ record { tried = min (old.tried + more.tried) (2 ^ 64 - 1); agreed = min (old.agreed + more.agreed) (2 ^ 64 - 1) } };

    fn add_assign(&mut self, more: Count) {
        self.tried = self.tried.saturating_add(more.tried);
        self.agreed = self.agreed.saturating_add(more.agreed);
    }
}

// A count is printed as what was tried, and what agreed.
impl fmt::Display for Count {
    ghost output = { λ count. Some (count_text count.tried count.agreed) };

    fn fmt<W: fmt::Write>(&self, f: &mut fmt::Formatter<W>) -> fmt::Result {
        let Count { tried, agreed } = *self;
        write!(f, "{tried} tried, {agreed} agree")
    }
}
