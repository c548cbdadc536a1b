//! How a node proposes what it executed.

ghost use Rattle.std.specs.Prelude.{◌≡◌, ◌<◌, ◌-◌, ◌++◌, ◌∷◌, [], true, length, Some, None, option_map, IfSome, IsSome, IfOk};
ghost use Rattle.rex_ballot.specs.Proposals.{IsValue};
ghost use Rattle.rex_cluster.specs.Values.{values_fit};
ghost use Rattle.rex_node.specs.Leading.{IsOwnCut};
ghost use Rattle.std.specs.Option.{option_copied};
ghost use Rattle.rex_record.specs.Kept.{IsRecorder};
ghost use Rattle.rex_node.specs.Cutting.{ProposesPieceOr, ProposesCutOr, CanMakePiece, CanPropose, HasPiece, IsIdle, MakesPieceOf};
ghost use Rattle.rex_node.specs.Cutting.{cut_before, has_open, with_cut};
ghost use Rattle.rex_log.specs.Log.{proposal_in};
ghost use Rattle.rex_node.specs.Parts.{CanFail, role_in, ActingValue, here_of, open_of, IsNode, knows, whole};
ghost use Rattle.rex_node.specs.Calls.{refusal_of_piece, cut_call, AreLimits, CanBeCut, RefusesThen, counts_for, if_active, if_up};
ghost use Rattle.rex_node.specs.Calls.{refusal_of_lead, refusal_of_open, refusal_of_cut};
ghost use Rattle.rex_node.specs.Performing.{Performs};

use crate::going::Going;
use crate::node::Node;
use crate::pieces::Piece;
use crate::refusal::Refusal;
use crate::step::{Draft, Step};
use rex_ballot::{INSTANCES, Proposal};
use rex_event::Cut;
use rex_log::Past;
use rex_paxos::{Acceptor, Proposer};
use rex_report::Effect;
use rex_syntax::checked::Checked;
use rex_traits::Keeper;
use std::alloc::AllocError;
use std::mem::replace;

impl<K: Keeper> Node<K> {
    // Why the node doesn't cut, before it makes the cut.
    fn cut_refusal<P: Past>(&self) -> Option<Refusal>
        ensures why { result ≡ if_up self.now.up (if_active (role_in self.now) (refusal_of_lead (role_in self.now) (length (knows P.past self.now)))) }
        ensures acts { result ≡ None → IsSome self.now.acting }
    {
        if let Some(refusal) = self.active_refusal() {
            return Some(refusal);
        }
        match &self.proposer {
            None => None,
            Some(proposer) => open_refusal(&self.acceptor, proposer, self.count::<P>() as usize),
        }
    }

    // The piece of what is executed.
    fn own_piece(&self, svc: &Checked, limits: Option<&[u32]>) -> Result<Piece, Refusal>
        requires acts { IsSome self.now.acting }
        requires recorder { IfSome self.now.acting (λ (a : ActingValue). IsRecorder svc.now a.recorder) }
        requires limits { AreLimits svc.now (option_copied limits) }
        requires spelling { IfSome self.now.acting (CanMakePiece (option_copied limits)) }
        ensures { MakesPieceOf self.now.acting (option_copied limits.entry) result }
    {
        let Some(acting) = &self.acting else {
            unreachable!()
        };
        acting.piece(self.alloc, svc, limits)
    }

    // The piece that the node can propose, or why there is none.
    fn piece<P: Past>(&self, svc: &Checked, limits: Option<&[u32]>) -> Result<Piece, Refusal>
        requires node { IsNode K.records svc.now P.past self.now }
        requires limits { AreLimits svc.now (option_copied limits) }
        requires spelling { CanBeCut (here_of K.records svc.now P.past self.now)
            (counts_for svc.now (here_of K.records svc.now P.past self.now) (option_copied limits)) }
        ensures refused { RefusesThen (refusal_of_cut (here_of K.records svc.now P.past self.now) (length (knows P.past self.now)))
            (refusal_of_piece (here_of K.records svc.now P.past self.now)
            (counts_for svc.now (here_of K.records svc.now P.past self.now) (option_copied limits.entry))) result }
        ensures can { IfOk result (CanPropose (whole P.past self.now) (option_copied limits.entry)) }
    {
        match self.cut_refusal::<P>() {
            Some(refusal) => Err(refusal),
            None => self.own_piece(svc, limits),
        }
    }

    // The cut that is proposed last is this one from here on; answers the one before.
    fn replace_cut<P: Past>(&mut self, cut: Cut) -> Cut
        ensures replaced { whole P.past self.new ≡ with_cut (whole P.past self.old) cut.counts }
        ensures before { result.counts ≡ cut_before self.old.acting cut.counts }
    {
        match &mut self.acting {
            None => cut,
            Some(acting) => replace(&mut acting.proposed, cut),
        }
    }

    // Whether a proposal is open.
    fn has_open(&self) -> bool
        ensures { result ≡ has_open self.now.proposer }
    {
        match &self.proposer {
            None => false,
            Some(proposer) => proposer.open_instance().is_some(),
        }
    }

    // Proposes the value of so many events, a cut of what is executed. A node alone knows it at once.
    fn propose_value<P: Past>(
        &mut self,
        svc: &Checked,
        draft: &mut Draft,
        events: u32,
        value: &[u8],
    ) -> Result<Going, AllocError>
        requires node { IsNode K.records svc.now P.past self.old }
        requires up { self.old.up ≡ true }
        requires count { CanFail K.faults self.old }
        requires active { IsSome self.old.acting }
        requires idle { IsIdle self.old.acceptor self.old.proposer }
        requires left { length (knows P.past self.old) < INSTANCES }
        requires value { IsValue value.now }
        requires cut { IsOwnCut svc.now (whole P.past self.old) value.now }
        requires fits { values_fit svc.now (knows P.past self.old ++ value.now ∷ []) ≡ true }
        ensures { ProposesCutOr K.records K.append_gives K.faults svc.now P.past events value.now self.old self.new draft.old draft.new result }
    {
        let node = self.id;
        let instance = self.count::<P>() + 1;
        let told = Effect::Proposes {
            node,
            instance,
            events,
        };
        match self.propose::<P>(svc, draft, told, instance, value)? {
            Going::Down => Ok(Going::Down),
            Going::On => {
                if self.has_open() {
                    return Ok(Going::On);
                }
                self.learn::<P>(svc, draft, instance, value)
            }
        }
    }

    // Proposes the piece.
    fn propose_piece<P: Past>(
        &mut self,
        svc: &Checked,
        draft: &mut Draft,
        piece: Piece,
    ) -> Result<Going, AllocError>
        requires node { IsNode K.records svc.now P.past self.old }
        requires can { HasPiece svc.now (whole P.past self.old) piece }
        requires count { CanFail K.faults self.old }
        ensures { ProposesPieceOr K.records K.append_gives K.faults svc.now P.past piece.cut.counts self.old self.new draft.old draft.new result }
    {
        let _service = svc.declarations();
        let Piece { cut, events, value } = piece;
        let before = self.replace_cut::<P>(cut);
        let end = self.propose_value::<P>(svc, draft, events, value.as_slice());
        if end.is_err() {
            self.replace_cut::<P>(before);
        }
        end
    }

    /// Proposes live events as the value of the next instance: all of them, or at most so many of each lane.
    pub fn cut<P: Past>(&mut self, svc: &Checked, limits: Option<&[u32]>) -> Result<Step, Refusal>
        requires node { IsNode K.records svc.now P.past self.old }
        requires limits { AreLimits svc.now (option_copied limits) }
        requires spelling { CanBeCut (here_of K.records svc.now P.past self.old)
            (counts_for svc.now (here_of K.records svc.now P.past self.old) (option_copied limits)) }
        requires count { CanFail K.faults self.old }
        ensures { Performs K.records K.append_gives K.faults svc.now P.past
            (cut_call svc.now self.old (counts_for svc.now (here_of K.records svc.now P.past self.old) (option_copied limits.entry)))
            (RefusesThen (refusal_of_cut (here_of K.records svc.now P.past self.old) (length (knows P.past self.old)))
            (refusal_of_piece (here_of K.records svc.now P.past self.old)
            (counts_for svc.now (here_of K.records svc.now P.past self.old) (option_copied limits.entry)))) self.old self.new result }
    {
        let _service = svc.declarations();
        let piece = self.piece::<P>(svc, limits)?;
        let before = self.keeper.len();
        let mut draft = Draft::new(self.alloc);
        let end = self.propose_piece::<P>(svc, &mut draft, piece);
        self.finish::<P>(before, draft, end)
    }
}

// Why a node that leads doesn't cut: a proposal is open, or no instance is left.
fn open_refusal(acceptor: &Acceptor, proposer: &Proposer, known: usize) -> Option<Refusal>
    ensures { result ≡ refusal_of_open (open_of acceptor.now proposer.now.open_instance) known }
{
    match proposer.open_instance() {
        None => ended(known),
        Some(instance) => open_or_ended(acceptor.accepted_for(instance), known),
    }
}

fn open_or_ended(proposal: Option<&Proposal>, known: usize) -> Option<Refusal>
    ensures { result ≡ refusal_of_open (option_map proposal_in (option_copied proposal.entry)) known }
{
    match proposal {
        None => ended(known),
        Some(proposal) => {
            let instance = proposal.instance;
            Some(Refusal::Open { instance })
        }
    }
}

fn ended(known: usize) -> Option<Refusal>
    ensures { result ≡ refusal_of_open None known }
{
    if known >= INSTANCES as usize {
        Some(Refusal::Ended)
    } else {
        None
    }
}
