// Laws about structs that hold one lent slice of bytes: a function that makes, takes or asks such a struct meets its contract, by a walk
// of its code that is the same for each of them (proofs/HeldLaws, proofs/AskLaws).
//
// The crate has no code.

#![tactic(auto)]
