// Page numbers, and the count of numbers handed out.

// The number of a page. 0 is nil: no page.
#[derive(Clone, Copy, Debug, PartialEq, Eq)]
pub struct PageNumber(pub u32);

// How many numbers an open save has handed out.
#[derive(Clone, Copy, Debug, PartialEq, Eq)]
pub struct Allocations(pub usize);
