// Laws about tests, lists and products that belong to no layer of the store, for the proofs of all crates above.
//
// The crate has no code.

#![tactic(auto)]
