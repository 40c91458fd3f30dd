//! What terms and formulas are read under.
use history_table::Table;
use trio_types::Spec;

/// A specification, a table that fits it, and the values of the variables, those of the outermost quantifier first.
#[derive(Clone, Copy)]
pub(crate) struct Interpretation<'a> {
    pub spec: &'a Spec,
    pub table: &'a Table,
    pub values: &'a [i64],
}
