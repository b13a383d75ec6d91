// Pages and what they are made of: numbers in bytes, page numbers, the pages of a store, and how a store grows.
//
// `PageSize` and `Store` have models: in contracts a page size is the number of its bytes, and a store its page size and its bytes.
#![tactic(auto)]

pub mod copy;
pub mod fill;
pub mod growth;
pub mod little_endian;
pub mod number;
pub mod size;
pub mod store;
