//! What a core's nodes speak of.
ghost use Rattle.std.specs.Prelude.{◌≡◌};

use crate::nodes::Core;
use trio_types::Declarations;

impl Core {
    /// The core's instants, domains and items.
    pub fn declarations(&self) -> Declarations<'_>
        ensures instants { result.instants ≡ self.now.instants }
        ensures domains { result.domains.now ≡ self.now.domains }
        ensures items { result.items.now ≡ self.now.items }
    {
        Declarations {
            instants: self.instants,
            domains: &self.domains,
            items: &self.items,
        }
    }
}
