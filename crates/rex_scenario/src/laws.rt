//! What the code answered for a line is. Each function is the statement that its contract makes, and does nothing.

ghost use Rattle.rex_scenario.specs.LeastCode.{LinesGetTheLeast, EndsGetTheLeast};

/// The code answered for a line, or for the end of a text, is the least of those that fit it.
pub fn codes_are_least()
    ensures lines { LinesGetTheLeast }
    ensures ends { EndsGetTheLeast }
{}
