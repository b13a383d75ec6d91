// The new list is put into the tables: the push list behind the entries kept, the new numbers behind the pages kept.
//
// A place goes beside the table, as `copy` takes it: so the clauses speak of the whole table.
ghost use Rattle.std.specs.Prelude.{◌≡◌, reverse, ◌+◌, ◌≤◌, length};
ghost use Rattle.std.proofs.lemmas.List.Edits.{sets};
ghost use Rattle.finisher.specs.Steps.{bad_place, push_list, Pushable};

use page::copy::copy;

// The place of the first freed number that is 0 or not below the limit, if there is one.
pub(crate) fn first_bad(freed: &[u32], limit: usize) -> Option<usize>
    ensures { result ≡ bad_place limit freed.now }
{
    freed
        .iter()
        .position(|number| *number == 0 || limit <= *number as usize)
}

// Copies the page numbers from the last to the first to the table, from place `at` on.
fn push_pages(pages: &[u32], table: &mut [u32], at: usize)
    requires { at + length pages.now ≤ length table.old }
    ensures { table.new ≡ sets table.old at (reverse pages.now) }
{
    copy(pages, table, at);
    table[at..at + pages.len()].reverse();
}

// Writes the push list to the table, from place `at` on: the freed numbers, then the pages released, from the top one down; in a list
// that is mended the first two of these change places. `mended` tells the one from the other and has no value beside it.
pub(crate) fn write_pushes(
    freed: &[u32],
    released: &[u32],
    mended: bool,
    table: &mut [u32],
    at: usize,
)
    requires { Pushable freed.now released.now mended table.old at }
    ensures { table.new ≡ sets table.old at (push_list freed.now mended released.now 0) }
{
    copy(freed, table, at);
    let first = at + freed.len();
    push_pages(released, table, first);
    if mended {
        table.swap(first, first + 1);
    }
}
