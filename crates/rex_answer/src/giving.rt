//! An answer is written, and its status is the program's.

ghost use Rattle.std.specs.Prelude.{◌<◌};
ghost use Rattle.rex_answer.specs.Outcome.{Gives, Ends};

use crate::answers::Answer;
use rex_traits::{Sink, SinkFault, write_all};

impl Answer {
    /// Writes the text, and answers the status: 5 in its place where a write failed, and 6 for want of memory. A front of
    /// the text was written then.
    pub fn give<K: Sink>(&self, sink: &mut K) -> u8
        requires { self.now.status < 4 }
        ensures gives { Gives self.now (K.taken sink.old) (K.taken sink.new) result }
        ensures ends { Ends self.now (K.faults sink.old) (K.faults sink.new) result }
    {
        match write_all(sink, &self.text) {
            Ok(()) => self.status,
            Err(SinkFault::Failed) => 5,
            Err(SinkFault::OutOfMemory) => 6,
        }
    }
}
