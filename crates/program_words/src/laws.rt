//! Laws of command lines, which speak of the definitions alone.

ghost use Rattle.program_words.specs.Laws.{AnyOrder, BothSpellings};

/// What options ask for doesn't hang on their order: two of different names that stand side by side may change places. So every order of
/// them asks the same in which the options of one name keep theirs.
pub fn any_order()
    ensures { AnyOrder }
{}

/// `--name=value` spells what `--name` and `value` spell as two words, where the name takes a value.
pub fn both_spellings()
    ensures { BothSpellings }
{}
