// The open save: numbers are handed out from the free list and past the bump.
#![tactic(auto)]

pub mod allocate;
pub mod open_save;
pub mod save;
