//! Sets of values, one for each cell.
ghost use Rattle.std.specs.Prelude.{◌≡◌, [], ◌∷◌, ◌++◌, ◌<◌, length, slice_get, slice_set, OnOk, OnErr, IfOk, IfErr, MatchOption};

use std::alloc::{AllocError, Global};
use std::marker::Model;
use trio_base::List;

/// A set of value indexes for each cell, in the order of the cells' numbers: bit v of a word says that index v is in the set.
#[derive(Drop)]
pub struct Doms {
    words: List<u64>,
}

impl Model for Doms {
    ghost use Rattle.std.specs.Prelude.{List, ℕ};

    ghost Value = { List ℕ };

    ghost view = { λ it. it.words };
}

impl Doms {
    /// The empty list. It takes no memory.
    pub fn new(alloc: Global) -> Doms
        ensures { result ≡ [] }
    {
        Doms {
            words: List::new(alloc),
        }
    }

    /// Appends a set. Only want of memory refuses it, and then the value comes back and the list is as before.
    pub fn push(&mut self, value: u64) -> Result<(), (u64, AllocError)>
        ensures ok { OnOk result (self.new ≡ self.old ++ value ∷ []) }
        ensures err { OnErr result (self.new ≡ self.old) }
        ensures back { IfErr result (λ refused. refused.0 ≡ value) }
    {
        self.words.push(value)
    }

    /// Appends a set. Only want of memory refuses it, and then the list is as before.
    pub fn add(&mut self, value: u64) -> Result<(), AllocError>
        ensures ok { OnOk result (self.new ≡ self.old ++ value ∷ []) }
        ensures err { OnErr result (self.new ≡ self.old) }
    {
        self.words.add(value)
    }

    /// A copy; only want of memory refuses it.
    pub fn copy(&self, alloc: Global) -> Result<Doms, AllocError>
        ensures { IfOk result (λ made. made ≡ self.now) }
    {
        let words = self.words.copy(alloc)?;
        Ok(Doms { words })
    }

    /// How many sets there are.
    pub fn len(&self) -> usize
        ensures { result ≡ length self.now }
    {
        self.words.len()
    }

    /// The set at a place, counted from 0.
    pub fn get(&self, place: usize) -> &u64
        requires { place < length self.now }
        ensures { slice_get self.now place ≡ Some result.now }
    {
        self.words.get(place)
    }

    /// Replaces the set at a place, counted from 0.
    pub fn set(&mut self, place: usize, value: u64)
        requires { place < length self.old }
        ensures { self.new ≡ slice_set self.old place value }
    {
        self.words.set(place, value);
    }

    /// Takes out the last set; `None` exactly where the list is empty.
    pub fn pop(&mut self) -> Option<u64>
        ensures { MatchOption result ((self.old ≡ []) × (self.new ≡ [])) (λ last. self.old ≡ self.new ++ last ∷ []) }
    {
        self.words.pop()
    }

    /// The sets as a slice.
    pub fn as_slice(&self) -> &[u64]
        ensures { result.now ≡ self.now }
    {
        self.words.as_slice()
    }
}
