//! Lists that are exactly their elements.
ghost use Rattle.std.specs.Prelude.{◌≡◌, [], ◌∷◌, ◌++◌, ◌<◌, ◌-◌, ◌↔◌, length, slice_get, slice_set, IsTrue, IfOk, IfErr, OnOk, OnErr, MatchOption, reverse};
ghost use Rattle.std.specs.Option.{option_copied};

use std::alloc::{AllocError, AllocFailed, Global};
use std::marker::Model;

/// A `Vec` that contracts see as the exact list of its elements: capacities and pointers are no part of it.
#[derive(Drop)]
pub struct List<T> {
    elements: Vec<T>,
}

impl<T> Model for List<T> {
    ghost use Rattle.std.specs.Prelude.{List};
    ghost use Rattle.std.specs.Coded.{coded_list};

    ghost Value = { List T };

    ghost coded = { coded_list T.code };

    ghost view = { λ it. it.elements.items };
}

impl<T> List<T> {
    /// The empty list. It takes no memory.
    pub fn new(alloc: Global) -> List<T>
        ensures { result ≡ [] }
    {
        List {
            elements: Vec::new(alloc),
        }
    }

    /// The list of a vector's elements. It takes no memory.
    pub fn from_vec(elements: Vec<T>) -> List<T>
        ensures { result ≡ elements.items }
    {
        List { elements }
    }

    /// The vector of the elements. It takes no memory.
    pub fn into_vec(self) -> Vec<T>
        ensures { result.items ≡ self }
    {
        let List { elements } = self;
        elements
    }

    /// The elements as a slice.
    pub fn as_slice(&self) -> &[T]
        ensures { result.now ≡ self.now }
    {
        self.elements.as_slice()
    }

    /// How many elements there are.
    pub fn len(&self) -> usize
        ensures { result ≡ length self.now }
    {
        self.elements.len()
    }

    /// Whether there is no element.
    pub fn is_empty(&self) -> bool
        ensures { IsTrue result ↔ (self.now ≡ []) }
    {
        self.elements.is_empty()
    }

    /// The element at a place, counted from 0.
    pub fn get(&self, place: usize) -> &T
        requires { place < length self.now }
        ensures { slice_get self.now place ≡ Some result.now }
    {
        &self.elements[place]
    }

    /// The last element, where there is one.
    pub fn last(&self) -> Option<&T>
        ensures { option_copied result ≡ slice_get self.now (length self.now - 1) }
    {
        self.elements.last()
    }

    /// Takes out the last element; `None` exactly where the list is empty.
    pub fn pop(&mut self) -> Option<T>
        ensures { MatchOption result ((self.old ≡ []) × (self.new ≡ [])) (λ last. self.old ≡ self.new ++ last ∷ []) }
    {
        self.elements.pop()
    }

    /// Appends an element. Only want of memory refuses it, and then the value comes back and the list is as before.
    pub fn push(&mut self, value: T) -> Result<(), (T, AllocError)>
        ensures ok { OnOk result (self.new ≡ self.old ++ value ∷ []) }
        ensures err { OnErr result (self.new ≡ self.old) }
        ensures back { IfErr result (λ refused. refused.0 ≡ value) }
    {
        match self.elements.push(value) {
            Ok(()) => Ok(()),
            Err(refused) => Err(returned(refused)),
        }
    }

    /// The elements in the opposite order. It takes no memory.
    pub fn reversed(self) -> List<T>
        ensures { result ≡ reverse self }
    {
        let mut elements = self.into_vec();
        elements.as_mut_slice().reverse();
        List { elements }
    }
}

impl<T: Drop> List<T> {
    /// The list of one element; only want of memory refuses it.
    pub fn of_one(alloc: Global, value: T) -> Result<List<T>, AllocError>
        ensures { IfOk result (λ made. made ≡ value ∷ []) }
    {
        let mut made = List::new(alloc);
        made.add(value)?;
        Ok(made)
    }

    /// Appends an element. Only want of memory refuses it, and then the value is gone and the list is as before.
    pub fn add(&mut self, value: T) -> Result<(), AllocError>
        ensures ok { OnOk result (self.new ≡ self.old ++ value ∷ []) }
        ensures err { OnErr result (self.new ≡ self.old) }
    {
        match self.push(value) {
            Ok(()) => Ok(()),
            Err((_, refused)) => Err(refused),
        }
    }

    /// Appends the elements of another list. Only want of memory refuses it, and then those are gone and the list is as before.
    pub fn append(&mut self, more: List<T>) -> Result<(), AllocError>
        ensures ok { OnOk result (self.new ≡ self.old ++ more) }
        ensures err { OnErr result (self.new ≡ self.old) }
    {
        self.elements.append(&mut more.into_vec())
    }

    /// Replaces the element at a place, counted from 0.
    pub fn set(&mut self, place: usize, value: T)
        requires { place < length self.old }
        ensures { self.new ≡ slice_set self.old place value }
    {
        self.elements[place] = value;
    }
}

impl<T: Copy> List<T> {
    /// A copy; only want of memory refuses it.
    pub fn copy(&self, alloc: Global) -> Result<List<T>, AllocError>
        ensures { IfOk result (λ made. made ≡ self.now) }
    {
        let elements = Vec::from_slice(alloc, self.elements.as_slice())?;
        Ok(List { elements })
    }

    /// The list of a slice's elements; only want of memory refuses it.
    pub fn from_slice(alloc: Global, elements: &[T]) -> Result<List<T>, AllocError>
        ensures { IfOk result (λ made. made ≡ elements.now) }
    {
        let elements = Vec::from_slice(alloc, elements)?;
        Ok(List { elements })
    }
}

fn returned<T>(refused: AllocFailed<T>) -> (T, AllocError)
    ensures { result.0 ≡ refused.value }
{
    let AllocFailed { value } = refused;
    (value, AllocError)
}
