//! The least of the codes that fit a line.

ghost use Rattle.std.specs.Prelude.{◌≡◌};
ghost use Rattle.rex_parse.specs.Words as spec;

use crate::language::ServiceCode;

/// The lesser of two codes that fit.
pub(crate) fn least(a: Option<ServiceCode>, b: Option<ServiceCode>) -> Option<ServiceCode>
    ensures { result ≡ spec.least a b }
{
    match (a, b) {
        (None, _) => b,
        (Some(_), None) => a,
        (Some(x), Some(y)) => Some(if rank(x) <= rank(y) { x } else { y }),
    }
}

/// A code that fits where the test holds.
pub(crate) fn fits(test: bool, code: ServiceCode) -> Option<ServiceCode>
    ensures { result ≡ spec.fits test code }
{
    if test { Some(code) } else { None }
}

fn rank(code: ServiceCode) -> u8
    ensures { result ≡ spec.rank code }
{
    match code {
        ServiceCode::BadByte => 1,
        ServiceCode::Misplaced => 2,
        ServiceCode::BadForm => 3,
        ServiceCode::NoName => 4,
        ServiceCode::NoNumber => 5,
        ServiceCode::BadExpression => 6,
        ServiceCode::Undeclared => 7,
        ServiceCode::WrongKind => 8,
        ServiceCode::Taken => 9,
        ServiceCode::TooDeep => 10,
        ServiceCode::TooMany => 11,
        ServiceCode::LanesFirst => 12,
        ServiceCode::ReplyInBlock => 13,
        ServiceCode::Unended => 14,
    }
}
