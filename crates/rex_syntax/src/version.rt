//! The versions in which states are spelled, and the services whose states have the old one.

ghost use Rattle.std.specs.Prelude.{◌≡◌};
ghost use Rattle.rex_syntax.specs.Versions as spec;

use crate::service::Declarations;

/// The most lanes of a service whose states have the old version.
pub const OLD_LANES: u64 = 16;

/// The most variables of such a service.
pub const OLD_VARIABLES: usize = 256;

/// How a state is spelled: version 1, the old one, has the values of all variables; version 2 has those that aren't first
/// values.
#[derive(Clone, Copy, PartialEq, Eq, Debug)]
pub enum Version {
    One,
    Two,
}

impl Version {
    /// The number that stands for the version in bytes.
    pub fn number(self) -> u8
        ensures { result ≡ spec.number_of self }
    {
        match self {
            Version::One => 1,
            Version::Two => 2,
        }
    }
}

/// Whether the states of a service with so many lanes and variables have the old version.
pub fn is_old_size(lanes: u64, variables: usize) -> bool
    ensures { result ≡ spec.is_old_size lanes variables }
{
    lanes <= OLD_LANES && variables <= OLD_VARIABLES
}

/// Whether the states of a service have the old version.
pub fn has_old_form(service: &Declarations) -> bool
    ensures { result ≡ spec.has_old_form service.now }
{
    is_old_size(service.lanes as u64, service.variables.len())
}

/// Whether the states of a service have this version.
pub fn has_version(service: &Declarations, version: Version) -> bool
    ensures { result ≡ spec.has_version service.now version }
{
    match version {
        Version::One => has_old_form(service),
        Version::Two => true,
    }
}
