// Document 01's marked samples, as rows of one proved statement about the definitions (specs/Samples).
//
// The crate has no code.

#![tactic(auto)]
