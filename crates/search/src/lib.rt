// A search for the best ways to one pit of a plan, written once for every lawful measure: Dijkstra's algorithm over a lent
// table of marks and an index of each pit's ducts. It fills in, for every pit, the best cost and the next pit of a best way.
// Nothing here allocates.
#![tactic(auto)]

mod allowed;
mod frontier;
mod index;
pub mod indexed;
pub mod links;
pub mod marks;
mod running;
pub mod searching;
pub mod table;
mod turns;
