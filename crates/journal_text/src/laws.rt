//! Laws of journals.

ghost use Rattle.journal_text.specs.Journals.{TextsAreDistinct};
ghost use Rattle.journal_text.specs.LineLaws.{LinesAreDecided};

/// Distinct histories have distinct texts: two lists of events within the ranges that have the same
/// journal are the same.
pub fn texts_are_distinct()
    ensures { TextsAreDistinct }
{}

/// Whether a line, with all lines before it, begins a journal is decided by that line and by what
/// the lines before it left open: a stage, and how many events are whole.
pub fn lines_are_decided()
    ensures { LinesAreDecided }
{}
