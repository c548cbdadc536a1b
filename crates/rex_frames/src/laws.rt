//! What holds of all frames.

ghost use Rattle.rex_frames.specs.Laws.{FramesAreReadBack};

/// Joined frames are read as these frames and no others, and no frame begins another.
pub fn frames_are_read_back()
    ensures { FramesAreReadBack }
{}
