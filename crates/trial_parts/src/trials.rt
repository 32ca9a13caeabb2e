ghost use Rattle.std.specs.Prelude.{◌≡◌, ◌<◌, ◌↔◌, ℕ, List, [], length, Option, IsTrue, OnSome};
ghost use Rattle.trial_parts.specs.declared.count.Count.{Count};
ghost use Rattle.std.specs.Iterator.{at_most};
ghost use Rattle.trial_parts.specs.Trials.{NextTrial};

use crate::count::Count;
use crate::input::TrialInput;
use std::marker::{Model, PhantomData};

// A trial: what a program reads from the front of its input, again and again, to compare two answers.
pub trait Trial {
    // What holds of the bytes before a trial, its count, and the bytes that it leaves.
    ghost run_gives: { List ℕ → Option Count → List ℕ → Type 0 };

    // Reads one trial and makes its comparisons. None where the bytes are no whole trial, or none that can be made.
    fn run(input: &mut TrialInput<'_>) -> Option<Count>
        ensures gives { run_gives input.old result input.new }
        ensures reads { OnSome result (length input.new < length input.old) };
}

// The trials of an input, one after the other. They end where the input does, or before the first that is no whole trial.
#[derive(Drop)]
pub struct Trials<'a, T> {
    input: TrialInput<'a>,
    trial: PhantomData<T>,
}

// The bytes that are still to be read.
impl<'a, T> Model for Trials<'a, T> {
    ghost Value = { List ℕ };

    ghost view = { λ trials. trials.input };
}

impl<'a, T> Trials<'a, T> {
    // The trials of a whole input.
    pub fn new(bytes: &'a [u8]) -> Self
        ensures { result ≡ bytes.now }
    {
        Trials {
            input: TrialInput::new(bytes),
            trial: PhantomData,
        }
    }

    // Whether the whole input was read.
    pub fn is_at_end(&self) -> bool
        ensures { IsTrue result ↔ (self.now ≡ []) }
    {
        self.input.is_empty()
    }
}

// The next count is that of a trial of the bytes that are left, and they are then what it leaves. Where it is no whole trial,
// they stay.
impl<T: Trial> Iterator for Trials<'_, T> {
    type Item = Count;

    ghost next_gives = { NextTrial T.run_gives };

    ghost remaining = { λ trials. at_most (length trials) };

    fn next(&mut self) -> Option<Count> {
        let mut ahead = self.input.lookahead();
        let count = T::run(&mut ahead)?;
        self.input = ahead;
        Some(count)
    }
}
