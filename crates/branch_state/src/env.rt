//! Values of variables.
ghost use Rattle.std.specs.Prelude.{◌≡◌, [], ◌∷◌, ◌++◌, ◌<◌, length, slice_get, slice_set, Some, IfOk, OnOk, OnErr, MatchOption};

use smallvec::SmallVec;
use std::alloc::{AllocError, Global};
use std::marker::Model;

/// The values of the variables of the quantifiers that stand round a node, from the outermost on. Up to four take no memory.
#[derive(Drop)]
pub struct Env {
    values: SmallVec<i64, 4>,
}

impl Model for Env {
    ghost use Rattle.std.specs.Prelude.{List, ℤ};

    ghost Value = { List ℤ };

    ghost view = { λ it. it.values.items };
}

impl Env {
    /// The empty list. It takes no memory.
    pub fn new(alloc: Global) -> Env
        ensures { result ≡ [] }
    {
        Env {
            values: SmallVec::new(alloc),
        }
    }

    /// The list of a slice's values; only want of memory refuses it.
    pub fn from_slice(alloc: Global, values: &[i64]) -> Result<Env, AllocError>
        ensures { IfOk result (λ made. made ≡ values.now) }
    {
        let values = SmallVec::from_slice(alloc, values)?;
        Ok(Env { values })
    }

    /// A copy; only want of memory refuses it.
    pub fn copy(&self, alloc: Global) -> Result<Env, AllocError>
        ensures { IfOk result (λ made. made ≡ self.now) }
    {
        let copied = Env::from_slice(alloc, self.values.as_slice())?;
        Ok(copied)
    }

    /// Appends a value. Only want of memory refuses it, and then the list is as before.
    pub fn push(&mut self, value: i64) -> Result<(), AllocError>
        ensures ok { OnOk result (self.new ≡ self.old ++ value ∷ []) }
        ensures err { OnErr result (self.new ≡ self.old) }
    {
        match self.values.push(value) {
            Ok(()) => Ok(()),
            Err(_) => Err(AllocError),
        }
    }

    /// Takes out the last value; `None` exactly where the list is empty.
    pub fn pop(&mut self) -> Option<i64>
        ensures { MatchOption result ((self.old ≡ []) × (self.new ≡ [])) (λ last. self.old ≡ self.new ++ last ∷ []) }
    {
        self.values.pop()
    }

    /// The value at a place, counted from 0.
    pub fn get(&self, place: usize) -> i64
        requires { place < length self.now }
        ensures { slice_get self.now place ≡ Some result }
    {
        self.values.as_slice()[place]
    }

    /// Replaces the value at a place, counted from 0.
    pub fn set(&mut self, place: usize, value: i64)
        requires { place < length self.old }
        ensures { self.new ≡ slice_set self.old place value }
    {
        self.values.as_mut_slice()[place] = value;
    }

    /// How many values there are.
    pub fn len(&self) -> usize
        ensures { result ≡ length self.now }
    {
        self.values.len()
    }

    /// The values as a slice.
    pub fn as_slice(&self) -> &[i64]
        ensures { result.now ≡ self.now }
    {
        self.values.as_slice()
    }
}
