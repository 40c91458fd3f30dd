//! The laws of given histories and their texts, each as the contract of a function that does nothing.
ghost use Rattle.history_table.specs.History.{OneHistory, HistoryOrFault};
ghost use Rattle.history_table.specs.FittingLaws.{ExtendsLaw, FirstUnknownLaw};

use trio_text::{text_has_one_fault, text_has_tokens_or_a_fault, text_is_one_list_of_tokens};

/// A text is one given history of a specification at most, or has one fault at most, and never both.
pub fn text_has_one_history()
    ensures { OneHistory }
{
    text_is_one_list_of_tokens();
    text_has_one_fault();
}

/// Every text is a given history of a specification, or has a fault.
pub fn text_has_a_history_or_a_fault()
    ensures { HistoryOrFault }
{
    text_has_tokens_or_a_fault();
}

/// A table extends a given history where it has each value that is given. The first unknown cell is the first at which none is.
pub fn given_values_stay_and_gaps_are_found()
    ensures extends { ExtendsLaw }
    ensures first { FirstUnknownLaw }
{}
