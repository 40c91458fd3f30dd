//! The laws of truth, of terms, of verdicts and of cells, each as the contract of a function that does nothing.
ghost use Rattle.trio_types.specs.Laws.{NotLaw, AndLaw, OrLaw, ImpliesLaw, IffLaw, AllLaw, ExLaw, AlwLaw, SomLaw, AlwFLaw, SomFLaw, AlwPLaw, SomPLaw};
ghost use Rattle.trio_types.specs.Laws.{DistLaw, FutrLaw, PastLaw, LastsLaw, WithinFLaw, LastedLaw, WithinPLaw, NextTimeLaw, LastTimeLaw, UntilLaw, SinceLaw};
ghost use Rattle.trio_types.specs.Laws.{OneOppositeLaw, FarOppositeLaw, QuantifierOppositeLaw, EmptyAheadLaw, EmptyBehindLaw};
ghost use Rattle.trio_types.specs.Laws.{CompareLaw, LoneLaw, NoValueLaw, ConstantLaw, ReadLaw, OutsideLaw, NoArgumentLaw, ArityLaw, NoItemLaw, NoPartLaw, PartLaw, TimesLaw, NoSumLaw, NoProductLaw, NumberLaw, IndexLaw, VariableLaw};
ghost use Rattle.trio_types.specs.Laws.{FalseLaw, TrueLaw, WholeLaw, CellsOrderLaw, CellsOnceLaw, CellsStandLaw, EntryLaw, RowLaw, DeclaredLaw, IsSpecification, FormedLaw};
ghost use Rattle.trio_types.specs.FormulaLaws.{TermShapeLaw, ShapeLaw, TermNumbersLaw, NumbersLaw, VariablesLaw, NewLaw};
ghost use Rattle.trio_types.specs.Verdict.{parts_of};

use crate::spec::Spec;

/// The connectives are those of propositional logic.
pub fn connectives_are_classical()
    ensures no { NotLaw }
    ensures both { AndLaw }
    ensures either { OrLaw }
    ensures implies { ImpliesLaw }
    ensures iff { IffLaw }
{}

/// Quantifiers range over the values of their domain.
pub fn quantifiers_range_over_values()
    ensures all { AllLaw }
    ensures ex { ExLaw }
{}

/// The operators on one formula speak of every or some instant inside time, of those after now, and of those before.
pub fn always_and_sometimes()
    ensures alw { AlwLaw }
    ensures som { SomLaw }
    ensures alw_f { AlwFLaw }
    ensures som_f { SomFLaw }
    ensures alw_p { AlwPLaw }
    ensures som_p { SomPLaw }
{}

/// A distance is true exactly where its target is inside time and the formula is true there.
pub fn distances_are_inside_time()
    ensures dist { DistLaw }
    ensures futr { FutrLaw }
    ensures past { PastLaw }
{}

/// The ranged operators speak of the instants inside time between now and the distance, with the ends that their suffix takes.
pub fn ranges_have_their_ends()
    ensures lasts { LastsLaw }
    ensures within_f { WithinFLaw }
    ensures lasted { LastedLaw }
    ensures within_p { WithinPLaw }
{}

/// The next and the last time is at the distance, and not between.
pub fn next_and_last_time()
    ensures next { NextTimeLaw }
    ensures last { LastTimeLaw }
{}

/// Until and Since have an instant at which the second formula is true, and the first at each between.
pub fn until_and_since()
    ensures until { UntilLaw }
    ensures since { SinceLaw }
{}

/// Each operator that speaks of every instant is the opposite of the one that speaks of some.
pub fn every_is_not_some_not()
    ensures one { OneOppositeLaw }
    ensures far { FarOppositeLaw }
    ensures quantifier { QuantifierOppositeLaw }
{}

/// A range without instants makes what speaks of every instant in it true, and what speaks of some false.
pub fn empty_ranges()
    ensures ahead { EmptyAheadLaw }
    ensures behind { EmptyBehindLaw }
{}

/// Atoms are true as their terms' values say, and false where a term has none.
pub fn atoms_compare_values()
    ensures compare { CompareLaw }
    ensures lone { LoneLaw }
    ensures none { NoValueLaw }
    ensures constant { ConstantLaw }
{}

/// Reads, sums and products, numbers, constants and variables.
pub fn terms_have_their_values()
    ensures read { ReadLaw }
    ensures outside { OutsideLaw }
    ensures no_argument { NoArgumentLaw }
    ensures arity { ArityLaw }
    ensures no_item { NoItemLaw }
    ensures no_part { NoPartLaw }
    ensures part { PartLaw }
    ensures times { TimesLaw }
    ensures no_sum { NoSumLaw }
    ensures no_product { NoProductLaw }
    ensures number { NumberLaw }
    ensures index { IndexLaw }
    ensures variable { VariableLaw }
{}

/// The first false axiom and instant are just that. There is none, and the specification is true, exactly where every axiom is true at each of
/// its instants.
pub fn first_false_is_first()
    ensures found { FalseLaw }
    ensures none { TrueLaw }
    ensures whole { WholeLaw }
{}

/// The cells stand in order, each once, and are those that the items have.
pub fn cells_stand_in_order()
    ensures order { CellsOrderLaw }
    ensures once { CellsOnceLaw }
    ensures stands { CellsStandLaw }
{}

/// The entry of a table at a cell's number is the cell's value, and row by row the table gives the values at the instants.
pub fn entries_are_values()
    ensures entry { EntryLaw }
    ensures row { RowLaw }
{}

/// A formula that is shaped has conjunctions and disjunctions of two parts or more, and sums of two, or of one with a sign.
pub fn shaped_formulas_have_parts()
    ensures terms { TermShapeLaw }
    ensures formulas { ShapeLaw }
{}

/// The numbers of a formula are those that are written in it.
pub fn numbers_are_those_written()
    ensures terms { TermNumbersLaw }
    ensures formulas { NumbersLaw }
{}

/// The variables of a formula are those of its quantifiers. They are new where none has a name that is taken, or that of one round it.
pub fn variables_are_those_of_quantifiers()
    ensures names { VariablesLaw }
    ensures new { NewLaw }
{}

/// The declared names are those of domains but `bool`, of their words, of items, axioms and goals.
pub fn declared_names_are_those_of_statements()
    ensures { DeclaredLaw }
{}

/// A specification is well formed, in words, and nothing else makes parts well formed.
pub fn specifications_are_well_formed(_spec: &Spec)
    ensures words { IsSpecification (parts_of _spec.now) }
    ensures only { FormedLaw }
{}
