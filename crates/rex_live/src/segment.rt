//! The lines that a lane's thread runs outside the lock.

ghost use Rattle.std.specs.Prelude.{◌≡◌, length, IfOk};
ghost use Rattle.rex_frame.specs.Handlers.{FitsIn};
ghost use Rattle.rex_state.specs.Own as own;

use crate::setting::Setting;
use rex_frame::frame::Frame;
use rex_state::lane::copy_frame;
use rex_state::run_on;
use rex_syntax::checked::Checked;
use std::alloc::{AllocError, Global};
use std::marker::PhantomData;

/// What a lane's thread is lent: the frame from which its lines go on, and the variables' values, of which those count
/// whose guards the frame holds.
#[derive(Drop)]
pub(crate) struct Segment<S: Setting> {
    frame: Frame,
    values: Vec<i64>,
    setting: PhantomData<S>,
    ghost fits: { FitsIn S.service frame },
    ghost long: { length values.items ≡ length S.service.variables },
}

/// What a thread brings back: what it was lent, and what the lines made of it.
#[derive(Drop)]
pub(crate) struct Brought<S: Setting> {
    pub(crate) lent: Frame,
    pub(crate) lent_values: Vec<i64>,
    pub(crate) frame: Frame,
    pub(crate) values: Vec<i64>,
    setting: PhantomData<S>,
    ghost ran: { (frame, values.items) ≡ own.ran S.service lent lent_values.items },
    ghost lent_long: { length lent_values.items ≡ length S.service.variables },
    ghost long: { length values.items ≡ length S.service.variables },
}

impl<S: Setting> Segment<S> {
    pub(crate) fn new(frame: Frame, values: Vec<i64>) -> Segment<S>
        requires fits { FitsIn S.service frame }
        requires long { length values.items ≡ length S.service.variables }
    {
        Segment {
            frame,
            values,
            setting: PhantomData,
        }
    }

    /// Runs the lines on copies of what was lent.
    pub(crate) fn run(self, alloc: Global, svc: &Checked) -> Result<Brought<S>, AllocError>
        requires { svc.now ≡ S.service }
    {
        let Segment {
            frame: lent,
            values: lent_values,
            setting,
        } = self;
        let mut frame = copy_frame(&lent);
        let mut values = lent_values.to_vec(alloc)?;
        run_on(&mut frame, &mut values, svc);
        Ok(Brought {
            lent,
            lent_values,
            frame,
            values,
            setting,
        })
    }
}
