// What the programs of trials share: the reader of their input, the count of what agrees, and the trials one after the other.
#![tactic(auto)]

pub mod count;
pub mod input;
pub mod plans;
pub mod trials;
