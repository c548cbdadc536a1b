//! Learners.

ghost use Rattle.std.specs.Prelude.{◌≡◌, ◌≤◌};
ghost use Rattle.rex_paxos.specs.Learner as spec;

use crate::answers::{Choice, Why};
use rex_ballot::INSTANCES;
use std::marker::Model;

/// How many instances of agreement a node knows the value of: those from 1 to this one. Contracts see it as that number.
#[derive(Drop)]
pub struct Learner {
    known: u32,
}

impl Model for Learner {
    ghost use Rattle.std.specs.Prelude.{ℕ, ◌≤◌};
    ghost use Rattle.rex_ballot.specs.declared.ballots.TheConstants.{INSTANCES};

    ghost Value = { ℕ };

    ghost view = { λ l. l.known };

    ghost invariant = { λ l. l.known ≤ INSTANCES };
}

impl Learner {
    /// A learner that knows so many.
    pub fn new(known: u32) -> Learner
        requires { known ≤ INSTANCES }
        ensures { result ≡ known }
    {
        Learner { known }
    }

    /// How many instances are known.
    pub fn known(&self) -> u32
        ensures is { result ≡ self.now }
        ensures few { self.now ≤ INSTANCES }
    {
        self.known
    }

    /// Takes the value that was chosen for an instance where it is the next one, and then knows it. It takes no memory.
    pub fn on_chosen(&mut self, instance: u32) -> Choice
        requires { instance ≤ INSTANCES }
        ensures choice { result ≡ spec.choice self.old instance }
        ensures known { self.new ≡ spec.known_after self.old instance }
    {
        let want = self.known + 1;
        if instance != want {
            let got = instance;
            return Choice::Ignored {
                why: Why::Instance { got, want },
            };
        }
        self.known = instance;
        Choice::Take
    }
}
