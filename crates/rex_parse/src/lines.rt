//! A declaration, or a line of a handler that leads to the next one alone: taken where no code fits it.

ghost use Rattle.std.specs.Prelude.{◌≡◌, ◌≤◌, length, drop};
ghost use Rattle.rex_parse.specs.Table.{form_code};
ghost use Rattle.rex_parse.specs.After.{after_form};
ghost use Rattle.rex_parse.specs.declared.language.Form.TheVariants as form;
ghost use Rattle.rex_parse.specs.Answers.{texts, Takes};

use crate::exprs::ReadExpr;
use crate::language::{Above, Fault};
use crate::words::{count_of, first_of};
use rex_syntax::line::Line;
use rex_syntax::service::{LANES, LOCALS, LockKind};
use rex_text::read_i64;
use std::alloc::Global;

// The words after the first two.
fn after_two<'a, 'b>(words: &'a [&'b [u8]]) -> &'a [&'b [u8]]
    ensures { texts result.now ≡ drop 2 (texts words.now) }
{
    match words {
        [_, _, rest @ ..] => rest,
        _ => &[],
    }
}

impl Above {
    // `lanes N`
    pub(crate) fn lanes_line(&mut self, number: u32, words: &[&[u8]]) -> Result<(), Fault>
        ensures takes { Takes result (form_code self.old form.Lanes (texts words.now))
            (after_form self.old number form.Lanes (texts words.now)) self.new }
        ensures locals { self.new.locals ≡ self.old.locals }
    {
        if let Some(code) = self.lanes_code(words) {
            return Err(Fault::Refused(code));
        }
        if let [count, ..] = words {
            self.lanes = count_of(1, LANES as u64, count);
        }
        Ok(())
    }

    // `lock NAME`
    pub(crate) fn lock_line(
        &mut self,
        alloc: Global,
        number: u32,
        words: &[&[u8]],
    ) -> Result<(), Fault>
        ensures takes { Takes result (form_code self.old form.Lock (texts words.now))
            (after_form self.old number form.Lock (texts words.now)) self.new }
        ensures locals { self.new.locals ≡ self.old.locals }
    {
        if let Some(code) = self.lock_form_code(words) {
            return Err(Fault::Refused(code));
        }
        if let [name, ..] = words {
            self.add_lock(alloc, LockKind::Plain, name)?;
        }
        Ok(())
    }

    // `rwlock NAME`
    pub(crate) fn rwlock_line(
        &mut self,
        alloc: Global,
        number: u32,
        words: &[&[u8]],
    ) -> Result<(), Fault>
        ensures takes { Takes result (form_code self.old form.RwLock (texts words.now))
            (after_form self.old number form.RwLock (texts words.now)) self.new }
        ensures locals { self.new.locals ≡ self.old.locals }
    {
        if let Some(code) = self.lock_form_code(words) {
            return Err(Fault::Refused(code));
        }
        if let [name, ..] = words {
            self.add_lock(alloc, LockKind::ReadersWriter, name)?;
        }
        Ok(())
    }

    // `sem NAME = NUMBER`
    pub(crate) fn sem_line(
        &mut self,
        alloc: Global,
        number: u32,
        words: &[&[u8]],
    ) -> Result<(), Fault>
        ensures takes { Takes result (form_code self.old form.Sem (texts words.now))
            (after_form self.old number form.Sem (texts words.now)) self.new }
        ensures locals { self.new.locals ≡ self.old.locals }
    {
        if let Some(code) = self.sem_code(words) {
            return Err(Fault::Refused(code));
        }
        if let [name, _, first, ..] = words {
            self.add_semaphore(alloc, name, first_of(first))?;
        }
        Ok(())
    }

    // `cond NAME on LOCK`
    pub(crate) fn cond_line(
        &mut self,
        alloc: Global,
        number: u32,
        words: &[&[u8]],
    ) -> Result<(), Fault>
        ensures takes { Takes result (form_code self.old form.Cond (texts words.now))
            (after_form self.old number form.Cond (texts words.now)) self.new }
        ensures locals { self.new.locals ≡ self.old.locals }
    {
        if let Some(code) = self.cond_code(words) {
            return Err(Fault::Refused(code));
        }
        if let [name, _, lock, ..] = words {
            let lock = self.lock_number(lock);
            self.add_condition(alloc, name, lock)?;
        }
        Ok(())
    }

    // `var NAME on LOCK = NUMBER`
    pub(crate) fn var_line(
        &mut self,
        alloc: Global,
        number: u32,
        words: &[&[u8]],
    ) -> Result<(), Fault>
        ensures takes { Takes result (form_code self.old form.Var (texts words.now))
            (after_form self.old number form.Var (texts words.now)) self.new }
        ensures locals { self.new.locals ≡ self.old.locals }
    {
        if let Some(code) = self.var_code(words) {
            return Err(Fault::Refused(code));
        }
        if let [name, _, lock, _, first, ..] = words {
            let guard = self.lock_number(lock);
            let first = read_i64(first).unwrap_or(0);
            self.add_variable(alloc, name, guard, first)?;
        }
        Ok(())
    }

    // `handler NAME PARAM..`
    pub(crate) fn handler_line(
        &mut self,
        alloc: Global,
        number: u32,
        words: &[&[u8]],
    ) -> Result<(), Fault>
        requires { length self.old.locals ≤ LOCALS }
        ensures takes { Takes result (form_code self.old form.Handler (texts words.now))
            (after_form self.old number form.Handler (texts words.now)) self.new }
        ensures locals { length self.new.locals ≤ LOCALS }
    {
        if let Some(code) = self.handler_code(words) {
            return Err(Fault::Refused(code));
        }
        if let [name, parameters @ ..] = words {
            self.begin_handler(alloc, number, name, parameters)?;
        }
        Ok(())
    }

    // `acquire LOCK`
    pub(crate) fn acquire_line(&mut self, number: u32, words: &[&[u8]]) -> Result<(), Fault>
        ensures takes { Takes result (form_code self.old form.Acquire (texts words.now))
            (after_form self.old number form.Acquire (texts words.now)) self.new }
        ensures locals { self.new.locals ≡ self.old.locals }
    {
        if let Some(code) = self.acquire_code(words) {
            return Err(Fault::Refused(code));
        }
        if let [lock, ..] = words {
            let lock = self.lock_number(lock);
            self.push_line(number, Line::Acquire { lock })?;
        }
        Ok(())
    }

    // `share LOCK`
    pub(crate) fn share_line(&mut self, number: u32, words: &[&[u8]]) -> Result<(), Fault>
        ensures takes { Takes result (form_code self.old form.Share (texts words.now))
            (after_form self.old number form.Share (texts words.now)) self.new }
        ensures locals { self.new.locals ≡ self.old.locals }
    {
        if let Some(code) = self.share_code(words) {
            return Err(Fault::Refused(code));
        }
        if let [lock, ..] = words {
            let lock = self.lock_number(lock);
            self.push_line(number, Line::Share { lock })?;
        }
        Ok(())
    }

    // `release LOCK`
    pub(crate) fn release_line(&mut self, number: u32, words: &[&[u8]]) -> Result<(), Fault>
        ensures takes { Takes result (form_code self.old form.Release (texts words.now))
            (after_form self.old number form.Release (texts words.now)) self.new }
        ensures locals { self.new.locals ≡ self.old.locals }
    {
        if let Some(code) = self.acquire_code(words) {
            return Err(Fault::Refused(code));
        }
        if let [lock, ..] = words {
            let lock = self.lock_number(lock);
            self.push_line(number, Line::Release { lock })?;
        }
        Ok(())
    }

    // `wait COND while EXPR`
    pub(crate) fn wait_line(
        &mut self,
        alloc: Global,
        number: u32,
        words: &[&[u8]],
    ) -> Result<(), Fault>
        requires { length self.old.locals ≤ LOCALS }
        ensures takes { Takes result (form_code self.old form.Wait (texts words.now))
            (after_form self.old number form.Wait (texts words.now)) self.new }
        ensures locals { length self.new.locals ≤ LOCALS }
    {
        let ReadExpr { code, expr } = self.read_expr(alloc, after_two(words))?;
        if let Some(code) = self.wait_code(words, code) {
            return Err(Fault::Refused(code));
        }
        if let [condition, _, ..] = words {
            let condition = self.condition_number(condition);
            let line = Line::Wait {
                condition,
                test: expr,
            };
            self.push_line(number, line)?;
        }
        Ok(())
    }

    // `signal COND`
    pub(crate) fn signal_line(&mut self, number: u32, words: &[&[u8]]) -> Result<(), Fault>
        ensures takes { Takes result (form_code self.old form.Signal (texts words.now))
            (after_form self.old number form.Signal (texts words.now)) self.new }
        ensures locals { self.new.locals ≡ self.old.locals }
    {
        if let Some(code) = self.signal_code(words) {
            return Err(Fault::Refused(code));
        }
        if let [condition, ..] = words {
            let condition = self.condition_number(condition);
            self.push_line(number, Line::Signal { condition })?;
        }
        Ok(())
    }

    // `broadcast COND`
    pub(crate) fn broadcast_line(&mut self, number: u32, words: &[&[u8]]) -> Result<(), Fault>
        ensures takes { Takes result (form_code self.old form.Broadcast (texts words.now))
            (after_form self.old number form.Broadcast (texts words.now)) self.new }
        ensures locals { self.new.locals ≡ self.old.locals }
    {
        if let Some(code) = self.signal_code(words) {
            return Err(Fault::Refused(code));
        }
        if let [condition, ..] = words {
            let condition = self.condition_number(condition);
            self.push_line(number, Line::Broadcast { condition })?;
        }
        Ok(())
    }

    // `down SEM`
    pub(crate) fn down_line(&mut self, number: u32, words: &[&[u8]]) -> Result<(), Fault>
        ensures takes { Takes result (form_code self.old form.Down (texts words.now))
            (after_form self.old number form.Down (texts words.now)) self.new }
        ensures locals { self.new.locals ≡ self.old.locals }
    {
        if let Some(code) = self.down_code(words) {
            return Err(Fault::Refused(code));
        }
        if let [semaphore, ..] = words {
            let semaphore = self.semaphore_number(semaphore);
            self.push_line(number, Line::Down { semaphore })?;
        }
        Ok(())
    }

    // `up SEM`
    pub(crate) fn up_line(&mut self, number: u32, words: &[&[u8]]) -> Result<(), Fault>
        ensures takes { Takes result (form_code self.old form.Up (texts words.now))
            (after_form self.old number form.Up (texts words.now)) self.new }
        ensures locals { self.new.locals ≡ self.old.locals }
    {
        if let Some(code) = self.down_code(words) {
            return Err(Fault::Refused(code));
        }
        if let [semaphore, ..] = words {
            let semaphore = self.semaphore_number(semaphore);
            self.push_line(number, Line::Up { semaphore })?;
        }
        Ok(())
    }

    // `set VAR = EXPR`
    pub(crate) fn set_line(
        &mut self,
        alloc: Global,
        number: u32,
        words: &[&[u8]],
    ) -> Result<(), Fault>
        requires { length self.old.locals ≤ LOCALS }
        ensures takes { Takes result (form_code self.old form.Set (texts words.now))
            (after_form self.old number form.Set (texts words.now)) self.new }
        ensures locals { length self.new.locals ≤ LOCALS }
    {
        let ReadExpr { code, expr } = self.read_expr(alloc, after_two(words))?;
        if let Some(code) = self.set_code(words, code) {
            return Err(Fault::Refused(code));
        }
        if let [variable, _, ..] = words {
            let variable = self.variable_number(variable);
            let line = Line::Set {
                variable,
                value: expr,
            };
            self.push_line(number, line)?;
        }
        Ok(())
    }

    // `let LOCAL = EXPR`
    pub(crate) fn let_line(
        &mut self,
        alloc: Global,
        number: u32,
        words: &[&[u8]],
    ) -> Result<(), Fault>
        requires { length self.old.locals ≤ LOCALS }
        ensures takes { Takes result (form_code self.old form.Let (texts words.now))
            (after_form self.old number form.Let (texts words.now)) self.new }
        ensures locals { length self.new.locals ≤ LOCALS }
    {
        let ReadExpr { code, expr } = self.read_expr(alloc, after_two(words))?;
        if let Some(code) = self.let_code(words, code) {
            return Err(Fault::Refused(code));
        }
        if let [local, _, ..] = words {
            self.make_local(alloc, local)?;
            let local = self.local_place(local) as u8;
            self.push_line(number, Line::Let { local, value: expr })?;
        }
        Ok(())
    }

    // `clock LOCAL`
    pub(crate) fn clock_line(
        &mut self,
        alloc: Global,
        number: u32,
        words: &[&[u8]],
    ) -> Result<(), Fault>
        requires { length self.old.locals ≤ LOCALS }
        ensures takes { Takes result (form_code self.old form.Clock (texts words.now))
            (after_form self.old number form.Clock (texts words.now)) self.new }
        ensures locals { length self.new.locals ≤ LOCALS }
    {
        if let Some(code) = self.clock_code(words) {
            return Err(Fault::Refused(code));
        }
        if let [local, ..] = words {
            self.make_local(alloc, local)?;
            let local = self.local_place(local) as u8;
            self.push_line(number, Line::Clock { local })?;
        }
        Ok(())
    }

    // `random LOCAL`
    pub(crate) fn random_line(
        &mut self,
        alloc: Global,
        number: u32,
        words: &[&[u8]],
    ) -> Result<(), Fault>
        requires { length self.old.locals ≤ LOCALS }
        ensures takes { Takes result (form_code self.old form.Random (texts words.now))
            (after_form self.old number form.Random (texts words.now)) self.new }
        ensures locals { length self.new.locals ≤ LOCALS }
    {
        if let Some(code) = self.clock_code(words) {
            return Err(Fault::Refused(code));
        }
        if let [local, ..] = words {
            self.make_local(alloc, local)?;
            let local = self.local_place(local) as u8;
            self.push_line(number, Line::Random { local })?;
        }
        Ok(())
    }
}
