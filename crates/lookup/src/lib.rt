// Page lookup: a page is sought among the pending pages of a save, then in the store.
#![tactic(auto)]

pub mod find;
pub mod lookup;
