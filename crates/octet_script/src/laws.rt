//! Laws about the grammar.
ghost use Rattle.octet_script.specs.BrokenRules.{UnknownWordIsRefused, WrongCountIsRefused, MisplacedIsRefused, BadArgumentIsRefused, FuelIsRefused, ObjectIsRefused, EndIsRefused, OpenThreadIsRefused, ThreadIsRefused, FuelOfAllIsRefused};
ghost use Rattle.octet_script.specs.WholeTexts.{NotUtf8IsRefused, NoThreadIsRefused, OpenAtEndIsRefused, OpenBeforeThreadIsRefused, EndOfNothingIsRefused};
ghost use Rattle.octet_script.specs.Laws.{CanonicalSpells, OneScript, ParsedIsSpelled};

/// A text is judged to say what a script says exactly where it spells the script.
pub fn parsing_is_the_grammar()
    ensures { ParsedIsSpelled }
{}

/// A text spells one script at most.
pub fn a_text_spells_one_script()
    ensures { OneScript }
{}

/// The canonical text of a script spells it.
pub fn canonical_text_spells_its_script()
    ensures { CanonicalSpells }
{}

/// Given that the lines before it are accepted, a line whose rules are broken is refused for the
/// first of these: its first word, the number of its words, its place, its arguments from left to
/// right, and then what the lines before have said.
pub fn broken_rule_is_refused()
    ensures word { UnknownWordIsRefused }
    ensures count { WrongCountIsRefused }
    ensures place { MisplacedIsRefused }
    ensures argument { BadArgumentIsRefused }
    ensures fuel { FuelIsRefused }
    ensures object { ObjectIsRefused }
    ensures end { EndIsRefused }
    ensures open_thread { OpenThreadIsRefused }
    ensures thread { ThreadIsRefused }
    ensures fuel_of_all { FuelOfAllIsRefused }
{}

/// A text that is not UTF-8 is refused in the line in which that shows, whatever its lines say. Given
/// that its lines are accepted, it is refused where it has no thread, and where a thread leaves a
/// `while` or `if` open; and given that the lines before it are, an `end` is where nothing is open.
pub fn broken_text_is_refused()
    ensures utf8 { NotUtf8IsRefused }
    ensures no_thread { NoThreadIsRefused }
    ensures open_at_end { OpenAtEndIsRefused }
    ensures open_before_thread { OpenBeforeThreadIsRefused }
    ensures end_of_nothing { EndOfNothingIsRefused }
{}
