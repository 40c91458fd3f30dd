//! Problems.
ghost use Rattle.std.specs.Prelude.{◌≡◌};
ghost use Rattle.history_table.specs.Fitting.{IsGiven};
ghost use Rattle.trio_core.specs.Stands.{StandsFor};
ghost use Rattle.trio_types.specs.Verdict.{world_of};
ghost use Rattle.branch_state.specs.Posed.{IsPosed, posed};

use history_table::Given;
use std::marker::Model;
use trio_core::Core;
use trio_types::Spec;

/// Which tables extend a given history and make a specification true? The core stands for the specification, and the history fits it.
#[derive(Drop)]
pub struct Problem {
    pub spec: Spec,
    pub core: Core,
    pub given: Given,
}

impl Model for Problem {
    ghost use Rattle.branch_state.specs.Posed.{Posed, posed, posed_code, IsPosed};

    ghost Value = { Posed };

    ghost coded = { posed_code };

    ghost view = { λ it. posed it.spec it.core it.given };

    ghost invariant = { λ it. IsPosed (posed it.spec it.core it.given) };
}

/// The problem of these parts. It takes no memory.
pub fn pose(spec: Spec, core: Core, given: Given) -> Problem
    requires stands { StandsFor core spec }
    requires fits { IsGiven (world_of spec) given }
    ensures { result ≡ posed spec core given }
{
    Problem { spec, core, given }
}

impl Problem {
    /// The core, which stands for the specification.
    pub fn core(&self) -> &Core
        ensures is { result.now ≡ self.now.core }
        ensures posed { IsPosed self.now }
    {
        &self.core
    }
}
