//! What a process has its node serve.

ghost use Rattle.std.specs.Prelude.{◌≡◌, true, IfOk, IfSome, OnOk, OnErr};
ghost use Rattle.std.specs.List.{All};
ghost use Rattle.rex_msg.specs.Spelling.{IsMessage};
ghost use Rattle.rex_process.specs.Keeping.{ByAppends};
ghost use Rattle.rex_process.specs.Process.{ComesTo, IsLeft, IsProcess, IsSame};
ghost use Rattle.rex_process.specs.Serving.{CanCall, IsTestFor, Spares, task_of};

use crate::process::Process;
use rex_fits::Applied;
use rex_list::List;
use rex_node::Step;
use rex_replay::OneThread;
use rex_steps::{Call, serve};
use rex_traits::Keeper;
use std::alloc::AllocError;
use std::marker::Brand;

impl<'a, K: Keeper> Process<'a, K> {
    /// Has the node serve a call that a process may ask of it, and does what comes behind that. If a message tells the value of
    /// the next instance, that is what was tested.
    pub(crate) fn served(
        &mut self,
        call: &Call<'_>,
        test: Option<Applied>,
    ) -> Result<Step, AllocError>
        requires process { IsProcess K.records K.faults self.old }
        requires up { self.old.node.up ≡ true }
        requires call { CanCall K.records self.old call.now }
        requires test { IfSome test (IsTestFor K.records self.old call.now) }
        ensures comes { IfOk result (ComesTo K.records K.faults self.old self.new (task_of call.now)) }
        ensures sends { IfOk result (λ step. All IsMessage step.sends) }
        ensures process { OnOk result (IsProcess K.records K.faults self.new) }
        ensures same { IsSame self.old self.new }
        ensures left { OnErr result (IsLeft K.records self.old self.new (task_of call.now)) }
        ensures appends { ByAppends K.append_gives self.old.node.keeper self.new.node.keeper }
        ensures spares { Spares call.now self.old self.new }
    {
        let _service = self.svc.declarations();
        let known = self.node.known();
        // A process has no list of agreed values, and an empty one takes no memory: the past that the proof picks is what the node knows.
        let step = serve::<Brand, K, OneThread>(
            &mut self.node,
            &List::new(self.alloc),
            self.alloc,
            self.svc,
            &mut OneThread,
            call,
        )?;
        self.settled(known, step, test)
    }
}
