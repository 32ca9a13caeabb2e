// The file of a plan: a reader over its two arrays, load and save.
// A file is read in place, duct by duct, and refused with the first rule that it breaks.
// What save writes, load reads back as the same plan.
#![tactic(auto)]

pub mod load;
mod reader;
pub mod save;
mod writer;
