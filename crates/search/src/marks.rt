ghost use Rattle.std.specs.Prelude.{◌≡◌, ◌≤◌, length};
ghost use Rattle.search.specs.Marks.{route_of, Follows};

use plan::limits::MAX_PITS;

// How many places a table has, one for each pit of the largest plan.
pub const PLACES: usize = MAX_PITS as usize;

// A way to the goal that a search saw from a pit: its cost, the pit that comes next, and how many ducts it has. The goal has
// itself as the next pit, and no ducts.
#[derive(Clone, Copy)]
pub struct Route {
    pub cost: u64,
    pub next: u16,
    pub hops: u16,
}

// How far a search has come with a pit.
#[derive(Clone, Copy)]
pub enum Mark {
    // no way from it to the goal was seen
    Unseen,
    // a way was seen, and a better one may still be found
    Open(Route),
    // its best way is known
    Settled(Route),
}

impl Mark {
    // The next pit of the way that a mark has; 0 for a pit that was not seen.
    fn next_pit(self) -> u16
        ensures { result ≡ (route_of self).next }
    {
        match self {
            Mark::Unseen => 0,
            Mark::Open(route) | Mark::Settled(route) => route.next,
        }
    }
}

// Puts the next pit of each mark into a list of its own, where a way is read without a look at the marks.
pub(crate) fn put_next_pits(marks: &[Mark], next_pits: &mut [u16])
    requires { length marks.now ≤ length next_pits.old }
    ensures { Follows marks.now next_pits.new }
{
    for (i, mark) in marks.iter().enumerate() {
        next_pits[i] = mark.next_pit();
    }
}

// A pit that was seen, with the way that was seen from it.
#[derive(Clone, Copy)]
pub(crate) struct SeenPit {
    pub(crate) pit: u16,
    pub(crate) route: Route,
}
