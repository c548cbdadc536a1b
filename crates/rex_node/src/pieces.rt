//! What a node proposes of what it executes.

ghost use Rattle.std.specs.Prelude.{◌≡◌, ◌<◌, ◌≤◌, length, Ok, IfOk};
ghost use Rattle.std.specs.Option.{option_copied};
ghost use Rattle.rex_event.specs.Cuts.{below};
ghost use Rattle.rex_cut.specs.Delta.{delta_at};
ghost use Rattle.rex_delta.specs.Spelling.{IsDelta, delta_bytes};
ghost use Rattle.rex_delta.specs.Reading.{delta_in};
ghost use Rattle.rex_record.specs.Kept.{IsRecorder};
ghost use Rattle.rex_node.specs.Calls.{AreLimits, CutIsSpelled};
ghost use Rattle.rex_node.specs.Cutting.{MakesPiece, counts_in, cut_in};

use crate::acting::Acting;
use crate::bounds::limits_between;
use crate::refusal::Refusal;
use rex_ballot::Value;
use rex_cut::{delta_of, greatest};
use rex_delta::encode;
use rex_event::{Cut, Delta};
use rex_list::List;
use rex_syntax::checked::Checked;
use std::alloc::{AllocError, Global};

/// The delta of the live events below a cut, as bytes, and how many events these are.
#[derive(Drop)]
pub(crate) struct Piece {
    pub(crate) cut: Cut,
    pub(crate) events: u32,
    pub(crate) value: Value,
}

impl Acting {
    // The counts below which a cut is made: all live events, or at most so many of each lane.
    fn counts(
        &self,
        alloc: Global,
        svc: &Checked,
        limits: Option<&[u32]>,
    ) -> Result<Vec<u32>, AllocError>
        requires recorder { IsRecorder svc.now self.now.recorder }
        requires limits { AreLimits svc.now (option_copied limits) }
        ensures { IfOk result (λ counts. counts.items ≡ counts_in self.now (option_copied limits.entry)) }
    {
        let _service = svc.declarations();
        match limits {
            None => self.recorder.state().counts(alloc),
            Some(limits) => {
                let firsts = self.recorder.start().counts(alloc)?;
                let lasts = self.recorder.state().counts(alloc)?;
                limits_between(alloc, &firsts, &lasts, limits)
            }
        }
    }

    /// The greatest consistent cut of the live events, or the one with at most so many of each lane.
    pub(crate) fn piece(
        &self,
        alloc: Global,
        svc: &Checked,
        limits: Option<&[u32]>,
    ) -> Result<Piece, Refusal>
        requires recorder { IsRecorder svc.now self.now.recorder }
        requires limits { AreLimits svc.now (option_copied limits) }
        requires spelling { 0 < length (below (cut_in self.now (option_copied limits)) self.now.recorder.live)
            → CutIsSpelled self.now.recorder.live (cut_in self.now (option_copied limits)) }
        ensures { MakesPiece self.now (cut_in self.now (option_copied limits.entry)) result }
    {
        let _service = svc.declarations();
        let counts = self.counts(alloc, svc, limits)?;
        let cut = greatest(alloc, &counts, self.recorder.trace())?;
        let delta = delta_of(alloc, &cut, self.recorder.trace())?;
        if delta.events.is_empty() {
            return Err(Refusal::Nothing);
        }
        Ok(piece_of(alloc, cut, &delta)?)
    }
}

fn piece_of(alloc: Global, cut: Cut, delta: &Delta) -> Result<Piece, AllocError>
    requires { IsDelta delta.now }
    ensures cut { IfOk result (λ p. p.cut ≡ cut) }
    ensures events { IfOk result (λ p. p.events ≡ length delta.now.events) }
    ensures value { IfOk result (λ p. p.value ≡ delta_bytes delta.now) }
    ensures again { IfOk result (λ p. delta_in p.value ≡ Ok delta.now) }
{
    let value = List::from_vec(encode(alloc, delta)?);
    let events = delta.events.len() as u32;
    Ok(Piece { cut, events, value })
}
