// A line of recorded numbers: read from text, then taken off its front and compared with.
#![tactic(auto)]

pub mod fault;
pub mod fields;
pub mod reading;
#[cfg(test)]
mod tests;
pub mod text;

// A line that is read byte by byte has at most so many numbers, and an array in a place that is lent for it at most so many elements.
pub const MOST: usize = 32768;
