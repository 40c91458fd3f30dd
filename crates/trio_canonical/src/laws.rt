//! What follows of the definitions alone.

ghost use Rattle.trio_canonical.specs.Brackets.{NestIsMostOpen};
ghost use Rattle.trio_canonical.specs.Laws.{CanonicalTextLaw};
ghost use Rattle.trio_canonical.specs.PrintedLaws.{PrintedHistoryLaw, PrintedTableLaw};

use history_table::text_has_one_history;
use trio_reader::text_has_one_specification;

/// The canonical text of a specification is that specification and no other.
pub fn canonical_text_is_that_specification()
    ensures { CanonicalTextLaw }
{
    text_has_one_specification();
}

/// The Nest of a specification, or of any parts, is the most brackets `(` and `[` that are open at once in its canonical text.
pub fn nest_is_open_brackets()
    ensures { NestIsMostOpen }
{}

/// What is printed of a given history is read as that history, and as no other.
pub fn printed_history_is_that_history()
    ensures { PrintedHistoryLaw }
{
    text_has_one_history();
}

/// What is printed of a table is read as that table, with every value known, and as nothing else.
pub fn printed_table_is_that_table()
    ensures { PrintedTableLaw }
{
    text_has_one_history();
}
