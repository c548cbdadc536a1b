//! What a good line declares.

ghost use Rattle.std.specs.Prelude.{◌≡◌, ◌≤◌, ◌<◌, ◌∷◌, [], length, OnOk, None};
ghost use Rattle.rex_syntax.specs.Limits.{most_variables};
ghost use Rattle.rex_parse.specs.Table as table;
ghost use Rattle.rex_parse.specs.After as after;
ghost use Rattle.rex_parse.specs.Answers.{texts};

use crate::blocks::Blocks;
use crate::copying::{own_word, own_words};
use crate::language::{Above, Meaning, OpenHandler};
use rex_list::List;
use rex_syntax::line::Line;
use rex_syntax::locks::LOCKS;
use rex_syntax::service::{
    CONDITIONS, Condition, HANDLERS, Handler, LOCALS, Lock, LockKind, PARAMETERS, SEMAPHORES,
    Semaphore, Variable,
};
use std::alloc::{AllocError, Global};

impl OpenHandler {
    pub(crate) fn push(&mut self, number: u32, line: Line) -> Result<(), AllocError>
        ensures { OnOk result (self.new ≡ after.more_lines number line self.old) }
    {
        self.lines.push(line)?;
        self.line_numbers.push(number)
    }
}

impl Above {
    // A further line of the open handler.
    pub(crate) fn push_line(&mut self, number: u32, line: Line) -> Result<(), AllocError>
        ensures taken { OnOk result (self.new ≡ after.with_line self.old number line) }
        ensures locals { self.new.locals ≡ self.old.locals }
    {
        match &mut self.open_handler {
            None => Ok(()),
            Some(handler) => handler.push(number, line),
        }
    }

    fn declare(&mut self, name: &[u8], meaning: Meaning) -> Result<(), AllocError>
        requires { table.new_code self.old name.now ≡ None }
        ensures taken { OnOk result (self.new ≡ after.with_name self.old name.now meaning) }
        ensures locals { self.new.locals ≡ self.old.locals }
    {
        self.names.insert(name, meaning)
    }

    pub(crate) fn add_lock(
        &mut self,
        alloc: Global,
        kind: LockKind,
        name: &[u8],
    ) -> Result<(), AllocError>
        requires room { length self.old.locks < LOCKS }
        requires new { table.new_code self.old name.now ≡ None }
        ensures taken { OnOk result (self.new ≡ after.with_lock self.old kind name.now) }
        ensures locals { self.new.locals ≡ self.old.locals }
    {
        let meaning = Meaning::Lock(self.locks.len() as u8);
        let lock = Lock {
            name: own_word(alloc, name)?,
            kind,
        };
        self.declare(name, meaning)?;
        self.locks.push(lock)
    }

    pub(crate) fn add_semaphore(
        &mut self,
        alloc: Global,
        name: &[u8],
        first: u32,
    ) -> Result<(), AllocError>
        requires room { length self.old.semaphores < SEMAPHORES }
        requires new { table.new_code self.old name.now ≡ None }
        ensures taken { OnOk result (self.new ≡ after.with_semaphore self.old name.now first) }
        ensures locals { self.new.locals ≡ self.old.locals }
    {
        let meaning = Meaning::Semaphore(self.semaphores.len() as u8);
        let semaphore = Semaphore {
            name: own_word(alloc, name)?,
            first,
        };
        self.declare(name, meaning)?;
        self.semaphores.push(semaphore)
    }

    pub(crate) fn add_condition(
        &mut self,
        alloc: Global,
        name: &[u8],
        lock: u8,
    ) -> Result<(), AllocError>
        requires room { length self.old.conditions < CONDITIONS }
        requires new { table.new_code self.old name.now ≡ None }
        ensures taken { OnOk result (self.new ≡ after.with_condition self.old name.now lock) }
        ensures locals { self.new.locals ≡ self.old.locals }
    {
        let meaning = Meaning::Condition(self.conditions.len() as u8);
        let condition = Condition {
            name: own_word(alloc, name)?,
            lock,
        };
        self.declare(name, meaning)?;
        self.conditions.push(condition)
    }

    pub(crate) fn add_variable(
        &mut self,
        alloc: Global,
        name: &[u8],
        guard: u8,
        first: i64,
    ) -> Result<(), AllocError>
        requires room { length self.old.variables < most_variables }
        requires new { table.new_code self.old name.now ≡ None }
        ensures taken { OnOk result (self.new ≡ after.with_variable self.old name.now guard first) }
        ensures locals { self.new.locals ≡ self.old.locals }
    {
        let meaning = Meaning::Variable(self.variables.len() as u16);
        let name_of = own_word(alloc, name)?;
        let variable = Variable {
            name: name_of,
            guard,
            first,
        };
        self.declare(name, meaning)?;
        self.variables.push(variable)
    }

    pub(crate) fn begin_handler(
        &mut self,
        alloc: Global,
        number: u32,
        name: &[u8],
        parameters: &[&[u8]],
    ) -> Result<(), AllocError>
        requires room { length self.old.handlers < HANDLERS }
        requires new { table.new_code self.old name.now ≡ None }
        requires few { length parameters.now ≤ PARAMETERS }
        requires few_locals { length self.old.locals ≤ LOCALS }
        ensures taken { OnOk result (self.new ≡ after.with_heading self.old number name.now (texts parameters.now)) }
        ensures locals { length self.new.locals ≤ LOCALS }
    {
        let meaning = Meaning::Handler(self.handlers.len() as u8);
        let name_of = own_word(alloc, name)?;
        let locals = own_words(alloc, parameters)?;
        self.declare(name, meaning)?;
        self.locals = locals;
        self.open_handler = Some(OpenHandler {
            name: name_of,
            line_number: number,
            parameters: parameters.len() as u8,
            lines: List::new(alloc),
            line_numbers: List::new(alloc),
            blocks: Blocks::new(alloc),
        });
        Ok(())
    }

    // The open handler is whole.
    pub(crate) fn end_handler(&mut self, alloc: Global) -> Result<(), AllocError>
        requires { length self.old.locals ≤ LOCALS }
        ensures taken { OnOk result (self.new ≡ after.closed self.old) }
        ensures locals { length self.new.locals ≤ LOCALS }
    {
        let Some(open) = self.open_handler.take() else {
            return Ok(());
        };
        let handler = Handler {
            name: open.name,
            line_number: open.line_number,
            parameters: open.parameters,
            locals: self.locals.len() as u8,
            lines: open.lines,
            line_numbers: open.line_numbers,
        };
        self.locals = List::new(alloc);
        self.handlers.push(handler)
    }

    // A local that is new is made.
    pub(crate) fn make_local(&mut self, alloc: Global, word: &[u8]) -> Result<(), AllocError>
        requires few { length self.old.locals ≤ LOCALS }
        requires room { table.locals_code self.old (word.now ∷ []) ≡ None }
        ensures taken { OnOk result (self.new ≡ after.with_local self.old word.now) }
        ensures locals { length self.new.locals ≤ LOCALS }
    {
        if self.is_local(word) {
            return Ok(());
        }
        self.locals.push(own_word(alloc, word)?)
    }
}
