//! Names, which are exactly their bytes.
ghost use Rattle.std.specs.Prelude.{◌≡◌, IfOk, string_bytes};

use std::alloc::{AllocError, Global};
use std::marker::Model;

/// A name, which contracts see as its bytes.
#[derive(Debug, Drop)]
pub struct Name {
    text: String,
}

impl Model for Name {
    ghost use Rattle.std.specs.Prelude.{List, ℕ, string_bytes};

    ghost Value = { List ℕ };

    ghost view = { λ n. string_bytes n.text };
}

impl Name {
    /// The name of this text; only want of memory refuses it.
    pub fn new(alloc: Global, text: &str) -> Result<Name, AllocError>
        ensures { IfOk result (λ name. name ≡ text.now) }
    {
        let text = String::from_str(alloc, text)?;
        Ok(Name { text })
    }

    /// The name's text.
    pub fn as_str(&self) -> &str
        ensures { result.now ≡ self.now }
    {
        self.text.as_str()
    }

    /// A copy; only want of memory refuses it.
    pub fn copy(&self, alloc: Global) -> Result<Name, AllocError>
        ensures { IfOk result (λ name. name ≡ self.now) }
    {
        Name::new(alloc, self.text.as_str())
    }
}
