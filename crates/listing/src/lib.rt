// The listing of sizes: how a line of the input is read, and what is printed for it.
#![tactic(auto)]

pub mod line;
pub mod text;
