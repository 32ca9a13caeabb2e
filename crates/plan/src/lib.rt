// A plan of pits and the ducts that join them: its values and the rules that every plan keeps,
// the refusals of the whole planner, and the two edits, lay and lift, which work on a copy.
// A plan is its counts and a fixed array of ducts, copied by value; nothing here allocates.
#![tactic(auto)]

pub mod checks;
pub mod ducts;
pub mod edits;
pub mod limits;
pub mod plans;
pub mod refusals;
