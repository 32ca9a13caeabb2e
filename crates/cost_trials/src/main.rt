// Compares the search with NetworkX. Standard input has the cost trials: plans with best lengths and bores. Each plan that
// disagrees is printed, then how many costs agree; the program ends with status 1 unless all do. The examples of searches that
// the rules name are this crate's tests.
#![tactic(auto)]

use crate::cost_trial::CostTrial;
use std::io;
use std::io::Read;
use trial_parts::count::Count;
use trial_parts::trials::Trials;

mod cost_trial;
#[cfg(test)]
mod searches;

// What this shares with the other program of trials is in trial_parts; the lines that it prints are its own.
fn main(rt: HostRuntime) -> io::Result<()> {
    let mut bytes = Vec::new(rt.alloc());
    rt.stdin().read_to_end(&mut bytes)?;
    let mut trials = Trials::<CostTrial>::new(&bytes);
    let mut plans = 0;
    let mut total = Count::default();
    for (i, count) in trials.by_ref().enumerate() {
        let Count { tried, agreed } = count;
        if !count.all_agree() {
            println!(rt; "plan {i}: {agreed} of {tried} costs agree")?;
        }
        plans = i + 1;
        total += count;
    }
    if !trials.is_at_end() {
        return Err(io::Error::other("a cost trial is cut short"));
    }
    println!(rt; "plans: {plans} searched")?;
    println!(rt; "costs: {total}")?;
    if total.all_agree() {
        Ok(())
    } else {
        Err(io::Error::other("a trial failed"))
    }
}
