//! Frames of bytes: each is the number of its bytes, in four bytes, and then these.

ghost use Rattle.std.specs.Prelude.{◌≡◌, ◌++◌, OnErr, OnOk};
ghost use Rattle.rex_frames.specs.Frames as spec;
ghost use Rattle.rex_frames.specs.Frames.{at_front, frame_of};

use std::alloc::AllocError;

/// The most bytes that a frame may have behind its length.
pub const FRAME_BYTES: usize = 268_435_456;

/// The bytes of a frame's length.
const HEAD_BYTES: usize = 4;

/// What stands at the front of bytes.
#[derive(Clone, Copy)]
pub enum Front<'a> {
    /// A whole frame, without its length, and what follows it.
    Whole { frame: &'a [u8], rest: &'a [u8] },
    /// Less than a whole frame.
    More,
    /// The length of a frame that is longer than any may be.
    TooLong,
}

/// What stands at the front of bytes.
pub fn front_of(bytes: &[u8]) -> Front<'_>
    ensures { at_front result ≡ spec.front_of bytes.now }
{
    let Some((head, rest)) = bytes.split_first_chunk::<HEAD_BYTES>() else {
        return Front::More;
    };
    let len = u32::from_be_bytes(*head) as usize;
    if len > FRAME_BYTES {
        return Front::TooLong;
    }
    if rest.len() < len {
        return Front::More;
    }
    let (frame, rest) = rest.split_at(len);
    Front::Whole { frame, rest }
}

/// Appends a frame of these bytes, `front` and then `rest`; or nothing, where they are more than a frame may have. Where
/// memory is short nothing changes.
pub(crate) fn push_frame(out: &mut Vec<u8>, front: &[u8], rest: &[u8]) -> Result<(), AllocError>
    ensures ok { OnOk result (out.new.items ≡ out.old.items ++ frame_of (front.now ++ rest.now)) }
    ensures err { OnErr result (out.new.items ≡ out.old.items) }
{
    let len = front.len() + rest.len();
    if len > FRAME_BYTES {
        return Ok(());
    }
    // With this room the appends below don't fail, so there is no front of a frame.
    out.reserve(HEAD_BYTES + len)?;
    let head = (len as u32).to_be_bytes();
    out.extend_from_slice(&head)?;
    out.extend_from_slice(front)?;
    out.extend_from_slice(rest)
}
