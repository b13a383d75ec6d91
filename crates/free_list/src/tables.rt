// The tables of a list.

// The two tables that a list stands in, which are lent: its page numbers and its entries, both from the bottom page up.
#[derive(Drop)]
pub struct Tables<'a> {
    pub pages: &'a mut [u32],
    pub entries: &'a mut [u32],
}
