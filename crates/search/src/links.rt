ghost use Rattle.std.specs.Prelude.{◌≡◌};
ghost use Rattle.search.specs.Index.{before};

use plan::ducts::Duct;

// Of one duct, by its place in the plan: the duct before it at its first end, and the duct before it at its second.
#[derive(Clone, Copy)]
pub struct Links {
    pub first: Option<u16>,
    pub second: Option<u16>,
}

impl Links {
    // What stands in a place that is not used, which a `default()` would not say.
    pub const NONE: Links = Links {
        first: None,
        second: None,
    };

    // The duct before this one at an end of it.
    pub(crate) fn before(self, duct: Duct, pit: u16) -> Option<u16>
        ensures { result ≡ before duct pit self }
    {
        if duct.first == pit {
            self.first
        } else {
            self.second
        }
    }
}
