//! A node that leads, or asks to.

ghost use Rattle.std.specs.Prelude.{◌≡◌, [], true, IfOk, OnOk, OnErr};
ghost use Rattle.rex_processes.specs.Processes.Task.{Cut, Elect};
ghost use Rattle.rex_processes.specs.Tested.{OwnReportsFit};
ghost use Rattle.std.specs.List.{All};
ghost use Rattle.rex_msg.specs.Spelling.{IsMessage};
ghost use Rattle.rex_process.specs.Sending.{AllSent};
ghost use Rattle.rex_process.specs.Keeping.{ByAppends};
ghost use Rattle.rex_process.specs.Process.{Answers, ComesTo, IsLeft, IsProcess, IsSame, Tells, here};

use crate::answers::Answer;
use crate::process::Process;
use rex_node::Step;
use rex_steps::Call;
use rex_traits::Keeper;
use std::alloc::AllocError;

impl<'a, K: Keeper> Process<'a, K> {
    /// Asks to lead.
    pub fn elect(&mut self) -> Result<Answer, AllocError>
        requires process { IsProcess K.records K.faults self.old }
        requires up { self.old.node.up ≡ true }
        ensures answers { IfOk result (Answers K.records K.faults self.old self.new Elect) }
        ensures sends { IfOk result AllSent }
        ensures process { OnOk result (IsProcess K.records K.faults self.new) }
        ensures same { IsSame self.old self.new }
        ensures left { OnErr result (IsLeft K.records self.old self.new Elect) }
        ensures appends { ByAppends K.append_gives self.old.node.keeper self.new.node.keeper }
    {
        if self.node.nodes() > 1 || self.own_fits()? {
            Ok(Answer::Did(self.served(&Call::Elect, None)?))
        } else {
            Ok(Answer::Unfit)
        }
    }

    /// Proposes all live events as the value of the next instance.
    pub fn cut(&mut self) -> Result<Step, AllocError>
        requires process { IsProcess K.records K.faults self.old }
        requires up { self.old.node.up ≡ true }
        ensures comes { IfOk result (ComesTo K.records K.faults self.old self.new Cut) }
        ensures sends { IfOk result (λ step. All IsMessage step.sends) }
        ensures process { OnOk result (IsProcess K.records K.faults self.new) }
        ensures same { IsSame self.old self.new }
        ensures left { OnErr result (IsLeft K.records self.old self.new Cut) }
        ensures appends { ByAppends K.append_gives self.old.node.keeper self.new.node.keeper }
    {
        self.served(&Call::Cut { limits: None }, None)
    }

    // Whether what the node accepted itself beyond what it knows fits: one that is alone knows that at once.
    fn own_fits(&self) -> Result<bool, AllocError>
        requires process { IsProcess K.records K.faults self.now }
        requires up { self.now.node.up ≡ true }
        ensures { IfOk result (λ fits. Tells fits (OwnReportsFit self.now.service (here K.records self.now))) }
    {
        let next = self.node.known() + 1;
        if self.node.accepted_for(next + 1).is_some() {
            return Ok(false);
        }
        match self.node.accepted_for(next) {
            None => Ok(true),
            Some(value) => Ok(self.tested(value)?.is_some()),
        }
    }
}
