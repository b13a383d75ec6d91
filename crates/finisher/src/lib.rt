// Finishing a save: first everything is judged, in numbers, and may be refused (`judge`); then it is written, which cannot fail (`carry`).
#![tactic(auto)]

mod carry;
mod encode;
pub mod finish;
mod judge;
mod tables;
