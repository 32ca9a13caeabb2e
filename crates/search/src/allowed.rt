// Which pits and ducts a search may use.
ghost use Rattle.std.specs.Prelude.{◌≡◌};
ghost use Rattle.search.specs.Allowed.{is_allowed, may_use};

use crate::indexed::IndexedPlan;
use plan::ducts::Duct;

// A plan of which only some pits may be used: `allowed` has a yes or no at each pit's place.
#[derive(Clone, Copy)]
pub(crate) struct AllowedPlan<'a> {
    pub(crate) indexed: &'a IndexedPlan,
    pub(crate) allowed: &'a [bool],
}

impl AllowedPlan<'_> {
    // Whether both ends of a duct are allowed.
    pub(crate) fn may_use(&self, duct: Duct) -> bool
        ensures { result ≡ may_use self.now.allowed.now duct }
    {
        self.is_allowed(duct.first) && self.is_allowed(duct.second)
    }

    // Whether a pit is allowed. Past the end of the list none is.
    pub(crate) fn is_allowed(&self, pit: u16) -> bool
        ensures { result ≡ is_allowed self.now.allowed.now pit }
    {
        self.allowed.get(pit as usize).copied().unwrap_or(false)
    }
}
