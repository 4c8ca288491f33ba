//! Tables of a limited size: items by number, whose memory is all claimed when the table is made.
#![tactic(auto)]

ghost use Rattle.std.specs.Prelude.{◌≡◌, ◌≤◌, ◌<◌, ◌↔◌, [], ◌∷◌, ◌++◌, length, take, IfOk, IfNone, IfSome, IsSome, OnSome, slice_get};
ghost use Rattle.std.specs.Borrow.{sem};
ghost use Rattle.std.specs.List.{IsItemAtMut};
ghost use Rattle.std.specs.Option.{option_copied};

use std::alloc::{AllocError, Global};
use std::marker::Model;

/// Items by number, from 0 in the order in which they were added, at most LIMIT of them. A clause sees the list of the
/// items.
#[derive(Debug, Drop)]
pub struct Bounded<T, const LIMIT: usize> {
    items: Vec<T>,
}

/// A table is seen as the list of its items.
impl<T, const LIMIT: usize> Model for Bounded<T, LIMIT> {
    ghost use Rattle.std.specs.Coded.{coded_list};
    ghost use Rattle.std.specs.Prelude.{◌≤◌, List, vec_capacity, vec_len};

    ghost Value = { List T };

    ghost coded = { coded_list T.code };

    ghost view = { λ b. b.items.items };

    // there is room for every item that the table will ever hold
    ghost invariant = { λ b. (LIMIT ≤ vec_capacity b.items) × (vec_len b.items ≤ LIMIT) };
}

impl<T, const LIMIT: usize> Bounded<T, LIMIT> {
    ghost use Rattle.bounded.specs.Lending.{lends_item};

    /// An empty table with room for LIMIT items. It is refused only where the memory cannot be claimed.
    pub fn new(heap: Global) -> Result<Self, AllocError>
        ensures { IfOk result (λ b. b ≡ []) }
    {
        Ok(Bounded {
            items: Vec::with_capacity(heap, LIMIT)?,
        })
    }

    /// How many items there are.
    pub fn len(&self) -> usize
        ensures value { result ≡ length self.now }
        ensures bound { result ≤ LIMIT }
    {
        self.items.len()
    }

    /// The items in the order of their numbers.
    pub fn as_slice(&self) -> &[T]
        ensures value { result.now ≡ self.now }
        ensures bound { length result.now ≤ LIMIT }
    {
        self.items.as_slice()
    }

    /// The item with a number, or `None` where no item has it.
    pub fn get(&self, number: usize) -> Option<&T>
        ensures { option_copied result ≡ slice_get self.now number }
    {
        self.items.get(number)
    }

    /// The item with a number, lent to be written, or `None` where no item has it. What the table ends as is told in
    /// `specs/Lending`.
    pub fn get_mut(&mut self, number: usize) -> Option<&mut T>
        ensures* writes_back { sem 𝓛 (lends_item T.row LIMIT.row self.entry number result) }
        ensures variant { IsSome result ↔ (number < length self.old) }
        ensures item { IsItemAtMut self.old number result }
    {
        self.items.get_mut(number)
    }
}

impl<T: Drop, const LIMIT: usize> Bounded<T, LIMIT> {
    /// Adds an item behind the others, and answers its number. A table that has LIMIT items already stays as it is, and
    /// `None` is answered.
    pub fn push(&mut self, item: T) -> Option<usize>
        ensures variant { IsSome result ↔ (length self.old < LIMIT) }
        ensures number { IfSome result (λ number. number ≡ length self.old) }
        ensures added { OnSome result (self.new ≡ self.old ++ item ∷ []) }
        ensures full { IfNone result (self.new ≡ self.old) }
    {
        let number = self.items.len();
        if number >= LIMIT {
            return None;
        }
        self.items.push_reserved(item);
        Some(number)
    }

    /// Keeps the first items, so many, and drops the others. Where there are no more than that, all stay.
    pub fn truncate(&mut self, count: usize)
        ensures { self.new ≡ take count self.old }
    {
        self.items.truncate(count);
    }
}
