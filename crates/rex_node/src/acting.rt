//! What an active node executes.

ghost use Rattle.std.specs.Prelude.{◌≡◌, ◌<◌, ◌≤◌, ◌+◌, ◌++◌, ◌^◌, length, map, Some, IfOk, OnOk, OnErr};
ghost use Rattle.rand_pcg.specs.Pcg.{pcg32};
ghost use Rattle.rex_state.specs.Machine.{lane_of, run};
ghost use Rattle.rex_state.specs.Counts.{AreCounted};
ghost use Rattle.rex_record.specs.Turn.{turn_of, does_draw, dice_after};
ghost use Rattle.rex_event.specs.Cuts.{below, IsConsistent};
ghost use Rattle.rex_record.specs.Take.{taken_turn};
ghost use Rattle.rex_record.specs.Value.{turned, releases};
ghost use Rattle.rex_cluster.specs.Values as values;
ghost use Rattle.rex_record.specs.Kept.{IsRecorder};
ghost use Rattle.rex_schedule.specs.Fits.{RequestFits};
ghost use Rattle.rex_node.specs.Blocks.{given_all};
ghost use Rattle.rex_node.specs.Leading.{settling};
ghost use Rattle.rex_node.specs.Submitting.{answer_in, given, taken};

use crate::step::Draft;
use rand_pcg::Lcg64Xsh32;
use rex_event::{Cut, Event};
use rex_gate::{Answer, Answers};
use rex_record::{LIVE_EVENTS, Recorder, Release, Turn, events_below};
use rex_report::Effect;
use rex_state::state::State;
use rex_syntax::checked::Checked;
use rex_syntax::request::Request;
use std::alloc::{AllocError, Global};
use std::marker::Model;

/// The recorder of an active node, its random generator, the cut of its live events that it proposed last, and what is known
/// of its clients.
#[derive(Drop)]
pub struct Acting {
    pub(crate) recorder: Recorder,
    pub(crate) dice: Lcg64Xsh32,
    pub(crate) proposed: Cut,
    pub(crate) answers: Answers,
}

impl Model for Acting {
    ghost use Rattle.rex_node.specs.Parts.{ActingValue};

    ghost Value = { ActingValue };

    ghost view = { λ a. record { recorder = a.recorder.value; dice = a.dice; proposed = a.proposed.counts; answers = a.answers } };
}

impl Acting {
    /// How many events are live.
    pub fn live(&self) -> u32
        requires { length self.now.recorder.live ≤ LIVE_EVENTS }
        ensures { result ≡ length self.now.recorder.live }
    {
        self.recorder.trace().len() as u32
    }

    /// The values of the variables in the live state.
    pub fn variables(&self) -> &[i64]
        ensures { result.now ≡ self.now.recorder.state.variables }
    {
        self.recorder.state().variables()
    }

    /// The values of the semaphores in the live state.
    pub fn semaphores(&self) -> &[u32]
        ensures { result.now ≡ self.now.recorder.state.semaphores }
    {
        self.recorder.state().semaphores()
    }

    // The answer to a request.
    fn answer(&self, request: &Request) -> Answer
        ensures { result ≡ answer_in self.now request.now }
    {
        let queued = self.recorder.queued(request.client);
        self.answers.answer(request, queued, self.recorder.state())
    }

    // A request that is answered `Queued` joins the queue.
    fn take(&mut self, svc: &Checked, request: &Request, answer: Answer) -> Result<(), AllocError>
        requires recorder { IsRecorder svc.now self.old.recorder }
        requires request { RequestFits svc.now request.now }
        requires answer { answer ≡ answer_in self.old request.now }
        ensures ok { OnOk result (self.new ≡ taken self.old request.now answer) }
        ensures err { OnErr result (self.new ≡ self.old) }
    {
        let _service = svc.declarations();
        if let Answer::Queued = answer {
            self.recorder.queue(svc, *request)?;
        }
        Ok(())
    }

    /// Answers a request, and queues it where it is due.
    pub fn submit(&mut self, svc: &Checked, request: &Request) -> Result<Answer, AllocError>
        requires recorder { IsRecorder svc.now self.old.recorder }
        requires request { RequestFits svc.now request.now }
        ensures answer { IfOk result (λ a. a ≡ answer_in self.old request.now) }
        ensures ok { IfOk result (λ a. self.new ≡ taken self.old request.now a) }
        ensures err { OnErr result (self.new ≡ self.old) }
    {
        let answer = self.answer(request);
        self.take(svc, request, answer)?;
        Ok(answer)
    }

    /// A lane's turn, where the clock reads this.
    pub fn lane(&mut self, svc: &Checked, lane: u8, now: i64) -> Result<Turn, AllocError>
        requires recorder { IsRecorder svc.now self.old.recorder }
        requires there { lane < svc.now.lanes }
        requires count { (lane_of self.old.recorder.state lane).done + 1 < 2 ^ 32 }
        ensures turn { IfOk result (λ t. t ≡ turn_of svc.now self.old.recorder.state self.old.recorder.queue (length self.old.recorder.live) lane now
            (pcg32 self.old.dice).0) }
        ensures ok { IfOk result (λ t. self.new ≡ record {
          recorder = turned svc.now self.old.recorder t;
          dice = dice_after
              (does_draw svc.now self.old.recorder.state (length self.old.recorder.live) lane) self.old.dice;
          proposed = self.old.proposed;
          answers = self.old.answers;
        }) }
        ensures err { OnErr result (self.new ≡ self.old) }
        ensures kept { IsRecorder svc.now self.new.recorder }
    {
        self.recorder.lane_step(svc, lane, now, &mut self.dice)
    }

    /// Takes an event that was made elsewhere among the live ones, where it is its lane's next one.
    pub fn take_event(&mut self, svc: &Checked, event: &Event) -> Result<Turn, AllocError>
        requires recorder { IsRecorder svc.now self.old.recorder }
        requires count { (lane_of self.old.recorder.state event.now.lane).done + 1 < 2 ^ 32 }
        ensures turn { IfOk result (λ t. t ≡ taken_turn svc.now self.old.recorder.state self.old.recorder.queue (length self.old.recorder.live) event.now) }
        ensures ok { IfOk result (λ t. self.new ≡ given svc.now self.old t) }
        ensures err { OnErr result (self.new ≡ self.old) }
        ensures kept { IsRecorder svc.now self.new.recorder }
    {
        self.recorder.take_event(svc, event)
    }

    /// Takes events that were made elsewhere and lead from the live state to this one, one after the other, as far as they can
    /// be taken.
    pub fn take_block(
        &mut self,
        svc: &Checked,
        events: &[Event],
        state: State,
    ) -> Result<(), AllocError>
        requires recorder { IsRecorder svc.now self.old.recorder }
        requires runs { run svc.now self.old.recorder.state events.now ≡ Some state }
        requires counted { AreCounted events.now }
        ensures ok { OnOk result (self.new ≡ given_all svc.now self.old events.now) }
        ensures err { OnErr result (self.new ≡ self.old) }
        ensures kept { IsRecorder svc.now self.new.recorder }
    {
        self.recorder.take_block(svc, events, state)
    }

    /// The live events below the cut that was proposed last are known: what they say of clients is noted, they are live no longer,
    /// and their replies are released.
    pub fn settle(
        &mut self,
        svc: &Checked,
        alloc: Global,
        draft: &mut Draft,
    ) -> Result<(), AllocError>
        requires recorder { IsRecorder svc.now self.old.recorder }
        requires consistent { IsConsistent self.old.recorder.live self.old.proposed }
        ensures ok { OnOk result (self.new ≡ settling svc.now self.old) }
        ensures effects { OnOk result (draft.new.effects.items ≡ draft.old.effects.items ++ map values.release_effect
            (releases self.old.recorder.start.clients (below self.old.proposed self.old.recorder.live))) }
        ensures sends { OnOk result (draft.new.sends.items ≡ draft.old.sends.items) }
    {
        let known = events_below(alloc, &self.proposed, self.recorder.trace())?;
        self.answers.note(&known)?;
        let released = self.recorder.settle(svc, alloc, &self.proposed)?;
        tell_releases(draft, released.as_slice())
    }
}

/// What is reported of a reply that is released.
pub fn release_effect(release: &Release) -> Effect
    ensures { result ≡ values.release_effect release.now }
{
    Effect::Released {
        client: release.client,
        sequence: release.sequence,
        value: release.value,
    }
}

// Tells of replies that are released.
fn tell_releases(draft: &mut Draft, releases: &[Release]) -> Result<(), AllocError>
    ensures effects { OnOk result (draft.new.effects.items ≡ draft.old.effects.items ++ map values.release_effect releases.now) }
    ensures sends { OnOk result (draft.new.sends.items ≡ draft.old.sends.items) }
{
    for release in releases {
        draft.tell(release_effect(release))?;
    }
    Ok(())
}
