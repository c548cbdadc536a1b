//! What follows from the record of a disk in memory. Each function is the statement that its contract makes, and does nothing.
ghost use Rattle.rex_disk.specs.Images.{ImagesMayBeLeft};
ghost use Rattle.rex_disk.specs.Rules.{AllowedAreLeft};

/// The image in which each write since the last sync is filled alike is one that a stop may leave.
#[tactic(auto, using(crate::specs::Images::image_left))]
pub fn images_may_be_left()
    ensures { ImagesMayBeLeft }
{}

/// A stop may leave just the images that the rules of a disk allow, said at once of all writes since the last sync that went
/// well: by their length, and byte by byte.
#[tactic(auto, using(crate::proofs::Allowing::allowed_are_left))]
pub fn allowed_images_are_left()
    ensures { AllowedAreLeft }
{}
