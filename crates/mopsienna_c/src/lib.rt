// The C interface as a static library: each operation of document 01, by the crate calls, at document 01's page size and, in `panel`, at the small
// panel's.
//
// A function returns 0, or document 01's number of the refusal. Its values go to `out`, whose other places stay as they were.
// include/mopsienna.h is the manual, and include/mopsienna_panel.h says what differs in `panel`.
// Each function is written out, one call of `calls` in each, since C calls it by its name; `sized_c` has the same at any page size.
#![tactic(auto)]

pub mod lists;
pub mod lookups;
pub mod panel;
pub mod recordings;
pub mod saves;
pub mod totals;
pub mod values;
