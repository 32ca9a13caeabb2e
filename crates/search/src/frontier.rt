// The frontier of a search: its open pits. What the search needs of it is the best of them.
// The pits are taken in blocks of 16, and of each block the best open pit is held, so that a changed mark costs a look through one
// block, and the best of all is found among the best of the blocks.
ghost use Rattle.std.specs.Prelude.{◌≡◌, ◌+◌, ◌*◌, ◌<◌, ◌≤◌, List, length, replicate, None};
ghost use Rattle.measure.specs.Meaning.{read};
ghost use Rattle.search.specs.declared.marks.Mark.{Mark};
ghost use Rattle.search.specs.Frontier.{BestOpen, open_at, better, Tracks, TracksOthers};

use crate::marks::{Mark, SeenPit};
use measure::Measure;

// How many pits a block has.
const BLOCK: usize = 16;

// How many blocks the pits of the largest plan make.
const BLOCKS: usize = 32;

// Of each block the best open pit.
#[derive(Clone, Copy)]
pub(crate) struct Frontier {
    pub(crate) held: [Option<SeenPit>; BLOCKS],
    ghost blocks: { length held ≡ 32 },
}

impl Frontier {
    // The frontier where no pit is open.
    pub(crate) fn new() -> Frontier
        ensures { result.held ≡ replicate 32 None }
    {
        Frontier {
            held: [None; BLOCKS],
        }
    }

    // Makes the frontier right again after the mark of one pit has changed.
    pub(crate) fn update<M: Measure>(&mut self, marks: &[Mark], pit: u16)
        requires few { length marks.now ≤ 512 }
        requires below { pit < length marks.now }
        requires others { TracksOthers (read M.Measure.means) marks.now pit self.old.held }
        ensures { Tracks (read M.Measure.means) marks.now self.new.held }
    {
        let block = pit as usize / BLOCK;
        self.held[block] = best_in::<M>(marks, block);
    }

    // The best open pit of the marks that the frontier tracks: none that is open has a better cost. None where no pit is open.
    pub(crate) fn best<M: Measure>(&self) -> Option<SeenPit>
        ensures { (ms : List Mark) → length ms ≤ 512 → Tracks (read M.Measure.means) ms self.now.held → BestOpen (read M.Measure.means) ms 0 (length ms) result }
    {
        let mut best = None;
        for held in &self.held {
            best = better::<M>(best, *held);
        }
        best
    }
}

// The best open pit of a block. The loop goes over pit numbers: those of a block may lie past the end of the marks.
fn best_in<M: Measure>(marks: &[Mark], block: usize) -> Option<SeenPit>
    requires few { length marks.now ≤ 512 }
    requires below { block < 32 }
    ensures { BestOpen (read M.Measure.means) marks.now (16 * block) (16 * block + 16) result }
{
    let start = BLOCK * block;
    let mut best = None;
    for pit in start..start + BLOCK {
        // proved to fit: an error of `try_from` could not come
        best = better::<M>(best, open_at(marks, pit as u16));
    }
    best
}

// The better of two pits, of which there may be none.
fn better<M: Measure>(best: Option<SeenPit>, other: Option<SeenPit>) -> Option<SeenPit>
    ensures { result ≡ better (read M.Measure.means) best other }
{
    match (best, other) {
        (_, None) => best,
        (None, Some(_)) => other,
        (Some(one), Some(two)) => {
            if M::no_worse(one.route.cost, two.route.cost) {
                best
            } else {
                other
            }
        }
    }
}

// A pit with its way, if it is open.
fn open_at(marks: &[Mark], pit: u16) -> Option<SeenPit>
    ensures { result ≡ open_at marks.now pit }
{
    match marks.get(pit as usize) {
        Some(Mark::Open(route)) => Some(SeenPit { pit, route: *route }),
        Some(Mark::Unseen | Mark::Settled(_)) | None => None,
    }
}
