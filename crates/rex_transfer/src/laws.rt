//! What windows tell of a list. Each function is the statement that its contract makes, and does nothing.

ghost use Rattle.rex_transfer.specs.Laws.{WindowsStay, WindowsTell};

/// A window of a list stays one where it takes the list's next value, forgets values, or jumps.
pub fn windows_stay()
    ensures { WindowsStay }
{}

/// What a window of a list has for an instance is the list's value, unless it holds none there.
pub fn windows_tell()
    ensures { WindowsTell }
{}
