// A search that runs.
ghost use Rattle.std.specs.Prelude.{◌≡◌, ◌<◌, ◌≤◌, length, slice_set};
ghost use Rattle.measure.specs.Meaning.{read};
ghost use Rattle.search.specs.Frontier.{BestOpen, Tracks, Tracks-prop};
ghost use Rattle.search.specs.Steps.{none_seen, takes, offered};

use crate::frontier::Frontier;
use crate::marks::{Mark, Route, SeenPit};
use measure::Measure;
use std::marker::PhantomData;

// The marks that a search was lent, and their frontier. The plan is no field: each method would have to say that it stays.
#[derive(Drop)]
pub(crate) struct Running<'a, M: Measure> {
    pub(crate) marks: &'a mut [Mark],
    frontier: Frontier,
    measure: PhantomData<M>,
    ghost few: { length marks.now ≤ 512 },
    ghost tracks: { Tracks (read M.Measure.means) marks.now frontier.held } by { Tracks-prop (read M.Measure.means) marks.now frontier.held },
}

impl<'a, M: Measure> Running<'a, M> {
    // The beginning, where no pit is seen.
    pub(crate) fn new(marks: &'a mut [Mark]) -> Self
        requires { length marks.old ≤ 512 }
        ensures same_reference { result.marks.ghost_name ≡ marks.entry.ghost_name }
        ensures marks { result.marks.now ≡ none_seen (length marks.old) }
    {
        marks.fill(Mark::Unseen);
        Running {
            marks,
            frontier: Frontier::new(),
            measure: PhantomData,
        }
    }

    // The best open pit: none that is open has a better cost. None where no pit is open.
    pub(crate) fn best(&self) -> Option<SeenPit>
        ensures { BestOpen (read M.Measure.means) self.now.marks.now 0 (length self.now.marks.now) result }
    {
        self.frontier.best::<M>()
    }

    // Gives a pit another mark. That it has one is no fact of the type, as it is about this one pit.
    pub(crate) fn put(&mut self, pit: u16, mark: Mark)
        requires { pit < length self.old.marks.now }
        ensures same_reference { self.new.marks.ghost_name ≡ self.old.marks.ghost_name }
        ensures marks { self.new.marks.now ≡ slice_set self.old.marks.now pit mark }
    {
        // lent to a variable, so that the frontier is held against the marks once both are written
        let marks = &mut *self.marks;
        marks[pit as usize] = mark;
        self.frontier.update::<M>(marks, pit);
    }

    // Opens a pit with a new way, if that is better than what its mark has.
    pub(crate) fn offer(&mut self, pit: u16, new: Route)
        requires { pit < length self.old.marks.now }
        ensures same_reference { self.new.marks.ghost_name ≡ self.old.marks.ghost_name }
        ensures marks { self.new.marks.now ≡ offered (read M.Measure.means) pit new self.old.marks.now }
    {
        if takes::<M>(self.marks[pit as usize], new.cost) {
            self.put(pit, Mark::Open(new));
        }
    }
}

// Whether a way of this cost is better than what the mark has. A settled pit has its best way.
fn takes<M: Measure>(old: Mark, cost: u64) -> bool
    ensures { result ≡ takes (read M.Measure.means) old cost }
{
    match old {
        Mark::Unseen => true,
        Mark::Open(route) => !M::no_worse(route.cost, cost),
        Mark::Settled(_) => false,
    }
}
