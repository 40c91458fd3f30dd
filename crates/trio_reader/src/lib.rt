//! The reader of specification texts.
#![tactic(auto)]

mod building;
mod declaring;
mod fault;
mod kind;
mod kinds;
mod laws;
mod lookup;
mod ranges;
mod reading;
mod sense;
mod world;

pub use fault::SpecFault;
pub use laws::{
    faulty_text_is_no_specification, text_has_one_fault, text_has_one_specification,
    text_has_specification_or_fault,
};
pub use reading::read_spec;
pub use trio_print::spec_text;
pub use trio_types::Which;
