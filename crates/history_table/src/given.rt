//! Given histories.
ghost use Rattle.std.specs.Prelude.{◌≡◌, [], ◌∷◌, ◌++◌, ◌<◌, length, slice_get, slice_set, OnOk, OnErr, IfErr, IfSome, MatchOption, map, Some, ◌^◌};
ghost use Rattle.history_table.specs.Fitting.{first_unknown};

use crate::table::Table;
use std::alloc::{AllocError, Global};
use std::marker::Model;
use trio_base::List;

/// The value index of each cell as far as it is known, in the order of the cells' numbers.
#[derive(Drop)]
pub struct Given {
    indexes: List<Option<u16>>,
}

impl Model for Given {
    ghost use Rattle.std.specs.Prelude.{List, Option, ℕ};

    ghost Value = { List (Option ℕ) };

    ghost view = { λ it. it.indexes };
}

impl Given {
    /// The empty list. It takes no memory.
    pub fn new(alloc: Global) -> Given
        ensures { result ≡ [] }
    {
        Given {
            indexes: List::new(alloc),
        }
    }

    /// The given history of these entries. It takes no memory.
    pub fn from_vec(entries: Vec<Option<u16>>) -> Given
        ensures { result ≡ entries.items }
    {
        Given {
            indexes: List::from_vec(entries),
        }
    }

    /// Appends an index. Only want of memory refuses it, and then the value comes back and the list is as before.
    pub fn push(&mut self, value: Option<u16>) -> Result<(), (Option<u16>, AllocError)>
        ensures ok { OnOk result (self.new ≡ self.old ++ value ∷ []) }
        ensures err { OnErr result (self.new ≡ self.old) }
        ensures back { IfErr result (λ refused. refused.0 ≡ value) }
    {
        self.indexes.push(value)
    }

    /// How many indexes there are.
    pub fn len(&self) -> usize
        ensures { result ≡ length self.now }
    {
        self.indexes.len()
    }

    /// The index at a place, counted from 0.
    pub fn get(&self, place: usize) -> &Option<u16>
        requires { place < length self.now }
        ensures { slice_get self.now place ≡ Some result.now }
    {
        self.indexes.get(place)
    }

    /// Replaces the index at a place, counted from 0.
    pub fn set(&mut self, place: usize, value: Option<u16>)
        requires { place < length self.old }
        ensures { self.new ≡ slice_set self.old place value }
    {
        self.indexes.set(place, value);
    }

    /// Takes out the last index; `None` exactly where the list is empty.
    pub fn pop(&mut self) -> Option<Option<u16>>
        ensures { MatchOption result ((self.old ≡ []) × (self.new ≡ [])) (λ last. self.old ≡ self.new ++ last ∷ []) }
    {
        self.indexes.pop()
    }

    /// The indexes as a slice.
    pub fn as_slice(&self) -> &[Option<u16>]
        ensures { result.now ≡ self.now }
    {
        self.indexes.as_slice()
    }

    /// Writes the indexes into a table of the same length, where each is known; else answers the first cell whose value is not, and then
    /// the table is as before. It takes no memory.
    pub fn whole(&self, into: &mut Table) -> Result<(), u32>
        requires same { length into.old ≡ length self.now }
        requires few { length self.now < 2 ^ 32 }
        ensures ok { OnOk result (self.now ≡ map Some into.new) }
        ensures unknown { IfErr result (λ cell. first_unknown self.now ≡ Some cell) }
        ensures stays { OnErr result (into.new ≡ into.old) }
    {
        if let Some(cell) = first_unknown(self.as_slice()) {
            return Err(cell as u32);
        }
        for (cell, index) in self.as_slice().iter().enumerate() {
            if let Some(index) = *index {
                into.set(cell, index);
            }
        }
        Ok(())
    }
}

/// The first cell whose value is not known.
fn first_unknown(given: &[Option<u16>]) -> Option<usize>
    ensures is { result ≡ first_unknown given.now }
    ensures within { IfSome result (λ cell. cell < length given.now) }
{
    given.iter().position(|index| index.is_none())
}
