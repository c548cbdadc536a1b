//! A reader of lines, one after the other.

ghost use Rattle.std.specs.Prelude.{◌≡◌, ◌≤◌, length, None, unwrap_or};
ghost use Rattle.rex_event.specs.Limits.{most_lanes};
ghost use Rattle.rex_text.specs.Text.{words_of};
ghost use Rattle.rex_text.specs.Text as text;
ghost use Rattle.rex_parse.specs.Above.{nothing};
ghost use Rattle.rex_parse.specs.Table.{line_code};
ghost use Rattle.rex_parse.specs.After.{after, service_of};
ghost use Rattle.rex_parse.specs.Reading.{raw_code, raw_after, end_code};
ghost use Rattle.rex_parse.specs.Answers.{texts, Takes};

use crate::language::{Above, Fault, Form, ServiceCode};
use crate::name_table::NameTable;
use crate::words::form_of;
use rex_list::List;
use rex_syntax::service::{Declarations, LOCALS, Service};
use rex_text::{find_words, is_clean, words};
use std::alloc::Global;
use std::marker::Model;

impl Above {
    fn new(alloc: Global) -> Above
        ensures { result ≡ nothing }
    {
        Above {
            lanes: None,
            names: NameTable::new(alloc),
            locks: List::new(alloc),
            semaphores: List::new(alloc),
            conditions: List::new(alloc),
            variables: List::new(alloc),
            handlers: List::new(alloc),
            locals: List::new(alloc),
            open_handler: None,
        }
    }

    // A line that isn't skipped.
    fn word_line(&mut self, alloc: Global, number: u32, words: &[&[u8]]) -> Result<(), Fault>
        requires { length self.old.locals ≤ LOCALS }
        ensures takes { Takes result (line_code self.old (texts words.now)) (after self.old number (texts words.now)) self.new }
        ensures locals { length self.new.locals ≤ LOCALS }
    {
        let [first, rest @ ..] = words else {
            return Ok(());
        };
        match form_of(first) {
            None => Err(Fault::Refused(ServiceCode::Misplaced)),
            Some(Form::Lanes) => self.lanes_line(number, rest),
            Some(Form::Lock) => self.lock_line(alloc, number, rest),
            Some(Form::RwLock) => self.rwlock_line(alloc, number, rest),
            Some(Form::Sem) => self.sem_line(alloc, number, rest),
            Some(Form::Cond) => self.cond_line(alloc, number, rest),
            Some(Form::Var) => self.var_line(alloc, number, rest),
            Some(Form::Handler) => self.handler_line(alloc, number, rest),
            Some(Form::Acquire) => self.acquire_line(number, rest),
            Some(Form::Share) => self.share_line(number, rest),
            Some(Form::Release) => self.release_line(number, rest),
            Some(Form::Try) => self.try_line(number, rest),
            Some(Form::Busy) => self.busy_line(alloc, number, rest),
            Some(Form::EndTry) => self.endtry_line(alloc, number, rest),
            Some(Form::Wait) => self.wait_line(alloc, number, rest),
            Some(Form::Signal) => self.signal_line(number, rest),
            Some(Form::Broadcast) => self.broadcast_line(number, rest),
            Some(Form::Down) => self.down_line(number, rest),
            Some(Form::Up) => self.up_line(number, rest),
            Some(Form::Set) => self.set_line(alloc, number, rest),
            Some(Form::Let) => self.let_line(alloc, number, rest),
            Some(Form::Clock) => self.clock_line(alloc, number, rest),
            Some(Form::Random) => self.random_line(alloc, number, rest),
            Some(Form::If) => self.if_line(alloc, number, rest),
            Some(Form::Else) => self.else_line(alloc, number, rest),
            Some(Form::EndIf) => self.endif_line(alloc, number, rest),
            Some(Form::Repeat) => self.repeat_line(number, rest),
            Some(Form::EndRepeat) => self.endrepeat_line(alloc, number, rest),
            Some(Form::Reply) => self.reply_line(alloc, number, rest),
        }
    }

    // A line as it stands.
    fn raw_line<'a>(
        &mut self,
        alloc: Global,
        words: &mut Vec<&'a [u8]>,
        number: u32,
        line: &'a [u8],
    ) -> Result<(), Fault>
        requires { length self.old.locals ≤ LOCALS }
        ensures takes { Takes result (raw_code self.old line.now) (raw_after self.old number line.now) self.new }
        ensures locals { length self.new.locals ≤ LOCALS }
    {
        if !is_clean(line) {
            return Err(Fault::Refused(ServiceCode::BadByte));
        }
        if is_skipped(line) {
            return Ok(());
        }
        find_words(words, line)?;
        self.word_line(alloc, number, words)
    }

    fn declarations(self) -> Declarations
        requires { unwrap_or self.lanes 0 ≤ most_lanes }
        ensures { result ≡ service_of self }
    {
        Declarations {
            lanes: self.lanes.unwrap_or(0) as u8,
            locks: self.locks,
            semaphores: self.semaphores,
            conditions: self.conditions,
            variables: self.variables,
            handlers: self.handlers,
        }
    }

    fn end_code(&self) -> Option<ServiceCode>
        ensures { result ≡ end_code self.now }
    {
        if self.is_open() || self.handlers.is_empty() {
            return Some(ServiceCode::Unended);
        }
        None
    }
}

fn is_skipped(line: &[u8]) -> bool
    ensures { result ≡ text.is_skipped (words_of line.now) }
{
    let mut rest = words(line);
    match rest.next() {
        None => true,
        Some(word) => word.first() == Some(&b'#'),
    }
}

/// A reader of the lines of a service. Contracts see it as what the lines so far have declared.
#[derive(Drop)]
pub struct Parser {
    alloc: Global,
    above: Above,
}

impl Model for Parser {
    ghost use Rattle.std.specs.Prelude.{◌≤◌, length};
    ghost use Rattle.rex_parse.specs.declared.language.Above.{Above};
    ghost use Rattle.rex_syntax.specs.declared.service.TheConstants.{LOCALS};

    ghost Value = { Above };

    ghost view = { λ p. p.above };

    ghost invariant = { λ p. length p.above.locals ≤ LOCALS };
}

ghost use Rattle.std.specs.Prelude.{OnOk};
ghost use Rattle.rex_parse.specs.Good.{IsGood};

impl Parser {
    /// A reader before the first line.
    pub fn new(alloc: Global) -> Parser
        ensures start { result ≡ nothing }
        ensures good { IsGood result }
    {
        Parser {
            alloc,
            above: Above::new(alloc),
        }
    }

    /// What the lines so far have declared.
    pub fn above(&self) -> &Above
        ensures { result.now ≡ self.now }
    {
        &self.above
    }

    /// Reads the next line, which has this number in its text, as it stands. After an error the reader serves no more.
    /// The list is lent as room for the line's words, so that one serves a whole text.
    pub fn raw_line<'a>(
        &mut self,
        words: &mut Vec<&'a [u8]>,
        number: u32,
        line: &'a [u8],
    ) -> Result<(), Fault>
        ensures takes { Takes result (raw_code self.old line.now) (raw_after self.old number line.now) self.new }
        ensures good { IsGood self.old → OnOk result (IsGood self.new) }
    {
        self.above.raw_line(self.alloc, words, number, line)
    }

    /// The code that fits the end of the text, at the line after the last.
    pub fn end_code(&self) -> Option<ServiceCode>
        ensures { result ≡ end_code self.now }
    {
        self.above.end_code()
    }

    /// The service that the lines declare. It takes no memory.
    pub fn finish(self) -> Service
        requires ended { end_code self ≡ None }
        requires good { IsGood self }
        ensures { result ≡ service_of self }
    {
        let Parser { alloc: _, above } = self;
        Service::of(above.declarations())
    }
}
