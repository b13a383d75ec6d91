// The free list: a list of free page numbers, kept on list pages of the store itself.
//
// A list page names the page before it, and a list is read from its head page down into two lent tables, page numbers and
// entries, both from the bottom page up. A lent bit map shows whether a number stands twice.
#![tactic(auto)]

pub mod encode;
pub mod list_page;
pub mod page_ref;
pub mod read;
mod repeats;
pub mod tables;
pub mod walk;
