//! Laws of sources and units, as the contracts of functions that do nothing.

ghost use Rattle.std.specs.Prelude.{◌≡◌, ℕ, List, ◌∷◌, []};
ghost use Rattle.module_lexer.specs.Octets.{is_reserved, is_punctuator};
ghost use Rattle.module_units.specs.Terminals.{Terminal};
ghost use Rattle.module_units.specs.Grammar.{UnitTree, unit_tree, IsSyntaxFault};
ghost use Rattle.module_units.specs.Unit.{UnitOf, unit_of};
ghost use Rattle.module_units.specs.Rules.{faults_of};
ghost use Rattle.module_units.specs.Reading.{SourceReading, Reads, words, marks, is_spelled};

/// A source has at most one reading: a unit, or else a fault.
pub fn one_reading()
    ensures { (text : List ℕ) (reading other : SourceReading)
        → Reads text reading → Reads text other → reading ≡ other }
{}

/// Trees of the same terminals are one unit, and break the same rules at the same places.
pub fn one_unit()
    ensures unit { (tree other : UnitTree) → unit_tree tree ≡ unit_tree other → unit_of tree ≡ unit_of other }
    ensures faults { (tree other : UnitTree) → unit_tree tree ≡ unit_tree other → faults_of tree ≡ faults_of other }
{}

/// Terminals have one syntax fault at most, and none where they are a unit.
pub fn one_syntax_fault()
    ensures one { (terminals : List Terminal) (place other : ℕ)
        → IsSyntaxFault terminals place → IsSyntaxFault terminals other → place ≡ other }
    ensures never_both { (tree : UnitTree) (place : ℕ) → IsSyntaxFault (unit_tree tree) place → ⊥ }
{}

/// Each reserved word and each punctuator is a terminal of the grammar.
pub fn each_token_is_spelled()
    ensures words { (octets : List ℕ) → is_spelled words octets ≡ is_reserved octets }
    ensures marks { (octet : ℕ) → is_spelled marks (octet ∷ []) ≡ is_punctuator octet }
{}
