// What is printed: where it goes, and what waits to be written there.
//
// A `BufWriter` would do the same with memory of the heap, and the program would rest on the C library's allocation too.
ghost use Rattle.std.specs.Prelude.{◌≤◌, length};
ghost use Rattle.listing.specs.Text.{max_text};

use listing::text::Output;

#[derive(Drop)]
pub(crate) struct Printer<'a, W> {
    pub(crate) writer: W,
    pub(crate) output: Output<'a>,
    ghost room: { max_text ≤ length output.buffer.now },
}
