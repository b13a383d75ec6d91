// Values that are kept in overflow pages: how many pages one takes, what each page holds, the cell that names the first pages, and
// reading and deleting a value by its cell.
#![tactic(auto)]

mod admit;
pub mod cell;
pub mod chunk;
pub mod delete;
pub mod page_ref;
mod parse;
pub mod read;
pub mod total;
pub mod value_page;
mod walk;
