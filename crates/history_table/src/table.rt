//! Tables.
ghost use Rattle.std.specs.Prelude.{◌≡◌, [], ◌∷◌, ◌++◌, ◌<◌, length, slice_get, slice_set, replicate, OnOk, OnErr, IfOk, IfErr, MatchOption};

use std::alloc::{AllocError, Global};
use std::marker::Model;
use trio_base::List;

/// A value index for each cell, in the order of the cells' numbers.
#[derive(Drop)]
pub struct Table {
    indexes: List<u16>,
}

impl Model for Table {
    ghost use Rattle.std.specs.Prelude.{List, ℕ};

    ghost Value = { List ℕ };

    ghost view = { λ it. it.indexes };
}

impl Table {
    /// The empty list. It takes no memory.
    pub fn new(alloc: Global) -> Table
        ensures { result ≡ [] }
    {
        Table {
            indexes: List::new(alloc),
        }
    }

    /// The table of this many cells, each with the index 0; only want of memory refuses it.
    pub fn blank(alloc: Global, cells: u32) -> Result<Table, AllocError>
        ensures whole { IfOk result (λ table. length table ≡ cells) }
        ensures zeros { IfOk result (λ table. table ≡ replicate cells 0) }
    {
        let indexes = vec![in alloc; 0; cells as usize]?;
        Ok(Table {
            indexes: List::from_vec(indexes),
        })
    }

    /// Appends an index. Only want of memory refuses it, and then the value comes back and the list is as before.
    pub fn push(&mut self, value: u16) -> Result<(), (u16, AllocError)>
        ensures ok { OnOk result (self.new ≡ self.old ++ value ∷ []) }
        ensures err { OnErr result (self.new ≡ self.old) }
        ensures back { IfErr result (λ refused. refused.0 ≡ value) }
    {
        self.indexes.push(value)
    }

    /// How many indexes there are.
    pub fn len(&self) -> usize
        ensures { result ≡ length self.now }
    {
        self.indexes.len()
    }

    /// The index at a place, counted from 0.
    pub fn get(&self, place: usize) -> &u16
        requires { place < length self.now }
        ensures { slice_get self.now place ≡ Some result.now }
    {
        self.indexes.get(place)
    }

    /// Replaces the index at a place, counted from 0.
    pub fn set(&mut self, place: usize, value: u16)
        requires { place < length self.old }
        ensures { self.new ≡ slice_set self.old place value }
    {
        self.indexes.set(place, value);
    }

    /// Takes out the last index; `None` exactly where the list is empty.
    pub fn pop(&mut self) -> Option<u16>
        ensures { MatchOption result ((self.old ≡ []) × (self.new ≡ [])) (λ last. self.old ≡ self.new ++ last ∷ []) }
    {
        self.indexes.pop()
    }

    /// The indexes as a slice.
    pub fn as_slice(&self) -> &[u16]
        ensures { result.now ≡ self.now }
    {
        self.indexes.as_slice()
    }
}

/// Tables in an order.
pub type Tables = List<Table>;
