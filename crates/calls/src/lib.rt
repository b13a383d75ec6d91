// Each operation of document 01 as a C interface has it, at any page size: 0 or the number of the refusal is returned, and the values
// go to `out`, whose other places stay as they were. The interfaces above only choose the page size.
//
// `specs/` says of each function what it leaves: what it returns, its `out`, and everything that was lent to it.
#![tactic(auto)]

pub mod lists;
pub mod lookups;
pub mod recordings;
pub mod saves;
pub mod told;
pub mod totals;
pub mod values;
