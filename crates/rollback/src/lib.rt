// Rollback: whatever part of a save reaches the disk, the save before it reads as it did. This crate has no code: the statement is
// in specs/, over the definitions that the contracts of the code cite, and its proof in proofs/.

#![tactic(auto)]
