// Finishing a save, planned: which pages of a free list are kept, which numbers become new list pages, and how far the bump rises.
//
// Nothing is written to the list here. With an empty slice for the new pages' numbers this is the dry run, which only counts.
#![tactic(auto)]

pub mod list;
pub mod plan;
pub mod turns;
