// A bit map in lent bytes: one bit for each number below a limit, which says whether the number is marked.
#![tactic(auto)]

pub mod map;
pub mod marking;
