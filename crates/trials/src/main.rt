// Compares load and save with the verdicts of a second model, in Python. Standard input has the trials: for each a plan file,
// good or damaged, and what the model says of it. Each trial that disagrees is printed, then how many agree; the program
// ends with status 1 unless all do. The examples that the rules name are this crate's tests.
#![tactic(auto)]

use crate::file_trial::FileTrial;
use std::io;
use std::io::Read;
use trial_parts::count::Count;
use trial_parts::trials::Trials;

#[cfg(test)]
mod answers;
#[cfg(test)]
mod edits;
mod file_trial;
#[cfg(test)]
mod files;
#[cfg(test)]
mod refusals;

// What this shares with the other program of trials is in trial_parts; the lines that it prints are its own.
fn main(rt: HostRuntime) -> io::Result<()> {
    let mut bytes = Vec::new(rt.alloc());
    rt.stdin().read_to_end(&mut bytes)?;
    let mut trials = Trials::<FileTrial>::new(&bytes);
    let mut total = Count::default();
    for (i, count) in trials.by_ref().enumerate() {
        if !count.all_agree() {
            println!(rt; "file {i} disagrees")?;
        }
        total += count;
    }
    println!(rt; "files: {total}")?;
    if trials.is_at_end() && total.all_agree() {
        Ok(())
    } else {
        Err(io::Error::other("a trial failed"))
    }
}
