//! What holds of all spellings.

ghost use Rattle.rex_delta.specs.Laws.{NoSpellingBeginsAnother};

/// No spelling begins another.
pub fn no_spelling_begins_another()
    ensures { NoSpellingBeginsAnother }
{}
