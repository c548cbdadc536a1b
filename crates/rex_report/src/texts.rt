//! The forms that the texts of a report have. A text holds the spaces around its words. Each function is inlined where it
//! is called: the text is a constant there, and is copied without a call.

ghost use Rattle.std.specs.Prelude.{◌≡◌, ◌++◌, OnOk};
ghost use Rattle.std.specs.Fmt.{decimal, signed_decimal};

use crate::pieces::{push_number, push_signed};
use std::alloc::AllocError;

/// A text and a name.
#[inline(always)]
pub(crate) fn push_named(
    out: &mut Vec<u8>,
    text: &'static [u8],
    name: &[u8],
) -> Result<(), AllocError>
    ensures { OnOk result (out.new.items ≡ out.old.items ++ (text.now ++ name.now)) }
{
    out.extend_from_slice(text)?;
    out.extend_from_slice(name)
}

/// A text and a number.
#[inline(always)]
pub(crate) fn push_numbered(
    out: &mut Vec<u8>,
    text: &'static [u8],
    number: u64,
) -> Result<(), AllocError>
    ensures { OnOk result (out.new.items ≡ out.old.items ++ (text.now ++ decimal number)) }
{
    out.extend_from_slice(text)?;
    push_number(out, number)
}

/// A text, a number, and a text.
#[inline(always)]
pub(crate) fn push_between(
    out: &mut Vec<u8>,
    before: &'static [u8],
    number: u64,
    after: &'static [u8],
) -> Result<(), AllocError>
    ensures { OnOk result (out.new.items ≡ out.old.items ++ (before.now ++ (decimal number ++ after.now))) }
{
    push_numbered(out, before, number)?;
    out.extend_from_slice(after)
}

/// A text and a number, twice.
#[inline(always)]
pub(crate) fn push_two_numbered(
    out: &mut Vec<u8>,
    text: &'static [u8],
    number: u64,
    other_text: &'static [u8],
    other: u64,
) -> Result<(), AllocError>
    ensures { OnOk result (out.new.items ≡ out.old.items ++ (text.now ++ (decimal number ++ (other_text.now ++ decimal other)))) }
{
    push_numbered(out, text, number)?;
    push_numbered(out, other_text, other)
}

/// A text and a signed number.
#[inline(always)]
pub(crate) fn push_value(
    out: &mut Vec<u8>,
    text: &'static [u8],
    value: i64,
) -> Result<(), AllocError>
    ensures { OnOk result (out.new.items ≡ out.old.items ++ (text.now ++ signed_decimal value)) }
{
    out.extend_from_slice(text)?;
    push_signed(out, value)
}
