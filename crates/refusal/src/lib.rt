// The refusals of document 01, and those of document 02 that are in: what a call answers where it cannot do what was asked.
//
// A refusal has a number and, for some rows of the table, a value. `specs/Refusals` gives both for every case.
#![tactic(auto)]

ghost use Rattle.std.specs.Prelude.{◌≡◌};
ghost use Rattle.std.proofs.lemmas.List.Edits.{sets};
ghost use Rattle.refusal.specs.Refusals.{number, values, told_beside};

// One case for each row of document 01's table, in its order, and then document 02's, with the value that the row returns beside the number.
#[derive(Clone, Copy, Debug, PartialEq, Eq)]
pub enum Refusal {
    // 1: a bump of 0 or above its limit, a P and L outside the shape, or tables shorter than them.
    State,
    // 2: a list page number at or past the store's page count.
    ListPage(u32),
    // 3: the count on this list page does not fit its place.
    Count(u32),
    // 4: an entry on this list page is 0 or at or past the page count.
    Entry(u32),
    // 5: the chain has not ended after as many pages as the store has.
    Chain,
    // 6: the list tables are shorter than the list, or than the new list.
    Tables,
    // 7: a number or a bump above its limit.
    Limit,
    // 8: the freed number at this place is 0, or not below the bump after the numbers handed out.
    Freed(usize),
    // 9: the page buffer or its number list is too short.
    Buffer,
    // 10: a size of 0 or above the limit.
    Size,
    // 11: the number list is not `total` long, or the page index not below it.
    Index,
    // 12: a cell under 44 bytes or not a multiple of 4.
    Cell,
    // 13: the value buffer, cell buffer or number table is too short.
    Room,
    // 14: the walk comes, at this index, to a number not yet known.
    Unknown(usize),
    // 15: the page at this index of a walk, or this page looked up, lies past the store.
    Missing(usize),
    // 16: the value page at this index claims more than its body.
    ValuePage(usize),
    // 17: the numbers found are not `total`.
    Numbers,
    // 18: the bytes found are not `size`.
    Bytes,
    // 21: the bit map is too short.
    Map,
    // 22: a number stands twice in a list, or with the freed ones; of a finish also one at or past the bump.
    Repeat,
    // 25: the value page at this index has no numbers and no bytes.
    EmptyPage(usize),
    // 26: a length that is not a multiple of a row's bytes.
    Rows,
    // 27: the second buffer is too short.
    SecondBuffer,
}

// The refusal's number in its document.
impl From<Refusal> for u32 {
    ghost from_gives = { λ r n. n ≡ number r };

    fn from(refusal: Refusal) -> u32 {
        match refusal {
            Refusal::State => 1,
            Refusal::ListPage(_) => 2,
            Refusal::Count(_) => 3,
            Refusal::Entry(_) => 4,
            Refusal::Chain => 5,
            Refusal::Tables => 6,
            Refusal::Limit => 7,
            Refusal::Freed(_) => 8,
            Refusal::Buffer => 9,
            Refusal::Size => 10,
            Refusal::Index => 11,
            Refusal::Cell => 12,
            Refusal::Room => 13,
            Refusal::Unknown(_) => 14,
            Refusal::Missing(_) => 15,
            Refusal::ValuePage(_) => 16,
            Refusal::Numbers => 17,
            Refusal::Bytes => 18,
            Refusal::Map => 21,
            Refusal::Repeat => 22,
            Refusal::EmptyPage(_) => 25,
            Refusal::Rows => 26,
            Refusal::SecondBuffer => 27,
        }
    }
}

impl Refusal {
    // The value that its row returns beside the number, if any.
    fn value(self) -> Option<u64>
        ensures { told_beside result ≡ values self }
    {
        match self {
            Refusal::ListPage(page) | Refusal::Count(page) | Refusal::Entry(page) => {
                Some(u64::from(page))
            }
            Refusal::Freed(place) => Some(place as u64),
            Refusal::Unknown(index)
            | Refusal::Missing(index)
            | Refusal::ValuePage(index)
            | Refusal::EmptyPage(index) => Some(index as u64),
            _ => None,
        }
    }

    // The number; the value, if any, goes to the first place of `out`.
    pub fn report(self, out: &mut [u64; 8]) -> u32
        ensures number { result ≡ number self }
        ensures values { out.new ≡ sets out.old 0 (values self) }
    {
        if let Some(value) = self.value() {
            out[0] = value;
        }
        u32::from(self)
    }
}
