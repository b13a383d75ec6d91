// Recorded calls that write, read and delete values: whether they give the same now. A line is as the crate `replayed` says.
#![tactic(auto)]

pub mod pages;
#[cfg(test)]
mod tests;
pub mod values;
