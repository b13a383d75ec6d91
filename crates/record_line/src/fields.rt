// The numbers of a line, taken off its front.
ghost use Rattle.std.specs.Prelude.{◌≡◌, ◌≢◌, ◌↔◌, ◌≤◌, ℕ, List, [], ◌∷◌, ◌++◌, Ok, IsOk, IfOk, IsErrOf, OnOk, OnErr, MatchOption, length, map, vec_len};
ghost use Rattle.std.specs.List.{AllClonesOf};
ghost use Rattle.std.proofs.Common.{rules};
ghost use Rattle.arrayvec.specs.ArrayVec.{array_vec_len};
ghost use Rattle.record_line.specs.Fields.{NoneFits, HasArray, HasRoom, HasTooMany};

use crate::MOST;
use crate::fault::{Fault, WrongLine};
use arrayvec::ArrayVec;
use std::alloc::{AllocError, Global};
use std::marker::Model;
use std::num::TryFromIntError;

// What stands before a call in tables and buffers.
pub const FILLER: u8 = 9;

// What stands before a call in `out`.
pub const BLANK_OUT: [u64; 8] = [FILLER as u64; 8];

// A type whose values are numbers of a line.
pub trait Number: Copy + Into<u64> + TryFrom<u64, Error = TryFromIntError> {
    ghost number: { Self → ℕ };

    // What std's conversions give is that number.
    ghost from_number: { (n : ℕ) (x : Self) → Self.try_from_gives n (Ok x) → number x ≡ n };

    ghost to_number: { (x : Self) (n : ℕ) → Self.converts x n → n ≡ number x };
}

impl Number for u8 {
    ghost number = { λ x. x };

    ghost from_number = { Prim.search rules };

    ghost to_number = { Prim.search rules };
}

impl Number for u32 {
    ghost number = { λ x. x };

    ghost from_number = { Prim.search rules };

    ghost to_number = { Prim.search rules };
}

impl Number for u64 {
    ghost number = { λ x. x };

    ghost from_number = { Prim.search rules };

    ghost to_number = { Prim.search rules };
}

// The numbers that are not taken yet: clauses see the list of these. `array` and `blank` take memory of the allocator, `array_into` and
// `blank_into` a place of the caller's.
#[derive(Drop)]
pub struct Fields<'a> {
    alloc: Option<Global>,
    rest: &'a [u64],
}

impl<'a> Model for Fields<'a> {
    ghost Value = { List ℕ };

    ghost view = { λ f. f.rest.now };
}

impl<'a> Fields<'a> {
    pub fn new(alloc: Global, line: &'a [u64]) -> Fields<'a>
        ensures { result ≡ line.now }
    {
        let mut fields = Fields::without_memory(line);
        fields.alloc = Some(alloc);
        fields
    }

    // The same without an allocator: `array` and `blank` then answer `OutOfMemory`.
    pub fn without_memory(line: &'a [u64]) -> Fields<'a>
        ensures { result ≡ line.now }
    {
        Fields {
            alloc: None,
            rest: line,
        }
    }

    // The next number, if one is left.
    fn next(&mut self) -> Option<u64>
        ensures { MatchOption result (self.old ≡ []) (λ n. self.old ≡ n ∷ self.new) }
    {
        let (first, rest) = self.rest.split_first()?;
        self.rest = rest;
        Some(*first)
    }

    // The next number, as one of the type.
    pub fn number<T: Number>(&mut self) -> Result<T, WrongLine>
        ensures ok { IfOk result (λ n. self.old ≡ T.number n ∷ self.new) }
        ensures wrong { OnErr result (NoneFits T.try_from_gives self.old) }
    {
        let number = self.next().ok_or(WrongLine)?;
        T::try_from(number).map_err(|_| WrongLine)
    }

    // The array that comes next, as its length and its elements.
    pub fn array<T: Number + Drop>(&mut self) -> Result<Vec<T>, Fault>
        ensures ok { IfOk result (λ v. self.old ≡ vec_len v ∷ (map T.number v.items ++ self.new)) }
        ensures wrong { IsErrOf result Fault.Wrong → ¬ (HasArray T.try_from_gives self.old) }
    {
        let alloc = self.alloc.ok_or(AllocError)?;
        let length = self.next().ok_or(WrongLine)?;
        let mut items = Vec::new(alloc);
        for _i in 0..length {
            items.push(self.number()?)?;
        }
        Ok(items)
    }

    // An array to be lent, as long as the next number says. None is longer than the rest of the line, where its elements stand.
    pub fn blank<T: Clone + Drop + From<u8>>(&mut self) -> Result<Vec<T>, Fault>
        ensures length { IfOk result (λ v. self.old ≡ vec_len v ∷ self.new) }
        ensures room { IfOk result (λ v. vec_len v ≤ length self.new) }
        ensures filled { IfOk result (λ v. (x : T) × T.from_gives FILLER x × AllClonesOf T.is_clone x v.items) }
        ensures wrong { IsErrOf result Fault.Wrong → ¬ (HasRoom self.old) }
    {
        let alloc = self.alloc.ok_or(AllocError)?;
        let length = self.next().ok_or(WrongLine)? as usize;
        WrongLine::unless(length <= self.rest.len())?;
        Ok(vec![in alloc; T::from(FILLER); length]?)
    }

    // Takes the array that comes next, as its length and its elements, in place of what `items` had. It has room for `MOST`. The caller
    // owns it, since an array that is handed back would be copied.
    pub fn array_into<T: Number + Default + Drop>(
        &mut self,
        items: &mut ArrayVec<T, MOST>,
    ) -> Result<(), Fault>
        ensures ok { OnOk result (self.old ≡ array_vec_len items.new ∷ (map T.number items.new.items ++ self.new)) }
        ensures wrong { IsErrOf result Fault.Wrong → ¬ (HasArray T.try_from_gives self.old) }
        ensures memory { IsErrOf result Fault.OutOfMemory → HasTooMany MOST self.old }
    {
        let count = self.next().ok_or(WrongLine)?;
        items.clear();
        for _element in 0..count {
            items.try_push(self.number()?)?;
        }
        Ok(())
    }

    // Makes an array to be lent, as long as the next number says, in the same way. None is longer than the rest of the line, where its
    // elements stand.
    pub fn blank_into<T: Copy + Default + Drop + From<u8>>(
        &mut self,
        items: &mut ArrayVec<T, MOST>,
    ) -> Result<(), Fault>
        ensures length { OnOk result (self.old ≡ array_vec_len items.new ∷ self.new) }
        ensures room { OnOk result (array_vec_len items.new ≤ length self.new) }
        ensures filled { OnOk result ((x : T) × T.from_gives FILLER x × AllClonesOf T.is_clone x items.new.items) }
        ensures wrong { IsErrOf result Fault.Wrong → ¬ (HasRoom self.old) }
        ensures memory { IsErrOf result Fault.OutOfMemory → HasTooMany MOST self.old }
    {
        let count = self.next().ok_or(WrongLine)? as usize;
        WrongLine::unless(count <= self.rest.len())?;
        let filler = T::from(FILLER);
        items.clear();
        for _i in 0..count {
            items.try_push(filler)?;
        }
        Ok(())
    }

    // Takes this number, which has to come next.
    fn expect_number(&mut self, number: u64) -> Result<(), WrongLine>
        ensures ok { OnOk result (self.old ≡ number ∷ self.new) }
        ensures wrong { OnErr result ((rest : List ℕ) → self.old ≢ number ∷ rest) }
    {
        match self.next() {
            Some(next) if next == number => Ok(()),
            _ => Err(WrongLine),
        }
    }

    // Takes these numbers, which have to come next.
    pub fn expect<T: Number>(&mut self, items: &[T]) -> Result<(), WrongLine>
        ensures ok { OnOk result (self.old ≡ map T.number items.now ++ self.new) }
        ensures wrong { OnErr result ((rest : List ℕ) → self.old ≢ map T.number items.now ++ rest) }
    {
        for &item in items {
            self.expect_number(item.into())?;
        }
        Ok(())
    }

    // Takes a status and the numbers beside it: `out`, or what the call wrote.
    pub fn expect_reply<T: Number>(&mut self, status: u32, items: &[T]) -> Result<(), WrongLine>
        ensures ok { OnOk result (self.old ≡ status ∷ (map T.number items.now ++ self.new)) }
        ensures wrong { OnErr result ((rest : List ℕ) → self.old ≢ status ∷ (map T.number items.now ++ rest)) }
    {
        self.expect(&[status])?;
        self.expect(items)
    }

    // No number is left.
    pub fn expect_end(&self) -> Result<(), WrongLine>
        ensures { IsOk result ↔ (self.now ≡ []) }
    {
        WrongLine::unless(self.rest.is_empty())
    }
}
