//! A line of a handler that opens, divides or closes a block, or ends the handler: taken where no code fits it.

ghost use Rattle.std.specs.Prelude.{◌≡◌, ◌≤◌, length};
ghost use Rattle.rex_parse.specs.Table.{form_code};
ghost use Rattle.rex_parse.specs.After.{after_form};
ghost use Rattle.rex_parse.specs.declared.language.Form.TheVariants as form;
ghost use Rattle.rex_parse.specs.Answers.{texts, Takes};

use crate::blocks::BlockKind;
use crate::exprs::ReadExpr;
use crate::language::{Above, Fault, Form};
use crate::words::turns_of;
use rex_syntax::line::Line;
use rex_syntax::service::LOCALS;
use std::alloc::Global;

impl Above {
    // `try LOCK`
    pub(crate) fn try_line(&mut self, number: u32, words: &[&[u8]]) -> Result<(), Fault>
        ensures takes { Takes result (form_code self.old form.Try (texts words.now))
            (after_form self.old number form.Try (texts words.now)) self.new }
        ensures locals { self.new.locals ≡ self.old.locals }
    {
        if let Some(code) = self.try_code(words) {
            return Err(Fault::Refused(code));
        }
        if let [lock, ..] = words {
            let lock = self.lock_number(lock);
            self.open_block(number, BlockKind::Got, Line::Try { lock, busy: 0 })?;
        }
        Ok(())
    }

    // `busy`
    pub(crate) fn busy_line(
        &mut self,
        alloc: Global,
        number: u32,
        words: &[&[u8]],
    ) -> Result<(), Fault>
        ensures takes { Takes result (form_code self.old form.Busy (texts words.now))
            (after_form self.old number form.Busy (texts words.now)) self.new }
        ensures locals { self.new.locals ≡ self.old.locals }
    {
        if let Some(code) = self.wordless_code(Form::Busy, words) {
            return Err(Fault::Refused(code));
        }
        if words.is_empty() {
            self.divide_block(alloc, number, BlockKind::Missed, Line::Busy { end: 0 })?;
        }
        Ok(())
    }

    // `endtry`
    pub(crate) fn endtry_line(
        &mut self,
        alloc: Global,
        number: u32,
        words: &[&[u8]],
    ) -> Result<(), Fault>
        ensures takes { Takes result (form_code self.old form.EndTry (texts words.now))
            (after_form self.old number form.EndTry (texts words.now)) self.new }
        ensures locals { self.new.locals ≡ self.old.locals }
    {
        if let Some(code) = self.wordless_code(Form::EndTry, words) {
            return Err(Fault::Refused(code));
        }
        if words.is_empty() {
            self.close_block(alloc, number, 0, Line::EndTry)?;
        }
        Ok(())
    }

    // `if EXPR`
    pub(crate) fn if_line(
        &mut self,
        alloc: Global,
        number: u32,
        words: &[&[u8]],
    ) -> Result<(), Fault>
        requires { length self.old.locals ≤ LOCALS }
        ensures takes { Takes result (form_code self.old form.If (texts words.now))
            (after_form self.old number form.If (texts words.now)) self.new }
        ensures locals { length self.new.locals ≤ LOCALS }
    {
        let ReadExpr { code, expr } = self.read_expr(alloc, words)?;
        if let Some(code) = self.if_code(words, code) {
            return Err(Fault::Refused(code));
        }
        let line = Line::If {
            test: expr,
            otherwise: 0,
        };
        self.open_block(number, BlockKind::Then, line)?;
        Ok(())
    }

    // `else`
    pub(crate) fn else_line(
        &mut self,
        alloc: Global,
        number: u32,
        words: &[&[u8]],
    ) -> Result<(), Fault>
        ensures takes { Takes result (form_code self.old form.Else (texts words.now))
            (after_form self.old number form.Else (texts words.now)) self.new }
        ensures locals { self.new.locals ≡ self.old.locals }
    {
        if let Some(code) = self.wordless_code(Form::Else, words) {
            return Err(Fault::Refused(code));
        }
        if words.is_empty() {
            self.divide_block(alloc, number, BlockKind::Otherwise, Line::Else { end: 0 })?;
        }
        Ok(())
    }

    // `endif`
    pub(crate) fn endif_line(
        &mut self,
        alloc: Global,
        number: u32,
        words: &[&[u8]],
    ) -> Result<(), Fault>
        ensures takes { Takes result (form_code self.old form.EndIf (texts words.now))
            (after_form self.old number form.EndIf (texts words.now)) self.new }
        ensures locals { self.new.locals ≡ self.old.locals }
    {
        if let Some(code) = self.wordless_code(Form::EndIf, words) {
            return Err(Fault::Refused(code));
        }
        if words.is_empty() {
            self.close_block(alloc, number, 0, Line::EndIf)?;
        }
        Ok(())
    }

    // `repeat K`
    pub(crate) fn repeat_line(&mut self, number: u32, words: &[&[u8]]) -> Result<(), Fault>
        ensures takes { Takes result (form_code self.old form.Repeat (texts words.now))
            (after_form self.old number form.Repeat (texts words.now)) self.new }
        ensures locals { self.new.locals ≡ self.old.locals }
    {
        if let Some(code) = self.repeat_code(words) {
            return Err(Fault::Refused(code));
        }
        if let [turns, ..] = words {
            let turns = turns_of(turns);
            self.open_block(number, BlockKind::Loop, Line::Repeat { turns, after: 0 })?;
        }
        Ok(())
    }

    // `endrepeat`
    pub(crate) fn endrepeat_line(
        &mut self,
        alloc: Global,
        number: u32,
        words: &[&[u8]],
    ) -> Result<(), Fault>
        ensures takes { Takes result (form_code self.old form.EndRepeat (texts words.now))
            (after_form self.old number form.EndRepeat (texts words.now)) self.new }
        ensures locals { self.new.locals ≡ self.old.locals }
    {
        if let Some(code) = self.wordless_code(Form::EndRepeat, words) {
            return Err(Fault::Refused(code));
        }
        if words.is_empty() {
            self.close_block(alloc, number, 1, Line::EndRepeat)?;
        }
        Ok(())
    }

    // `reply EXPR`
    pub(crate) fn reply_line(
        &mut self,
        alloc: Global,
        number: u32,
        words: &[&[u8]],
    ) -> Result<(), Fault>
        requires { length self.old.locals ≤ LOCALS }
        ensures takes { Takes result (form_code self.old form.Reply (texts words.now))
            (after_form self.old number form.Reply (texts words.now)) self.new }
        ensures locals { length self.new.locals ≤ LOCALS }
    {
        let ReadExpr { code, expr } = self.read_expr(alloc, words)?;
        if let Some(code) = self.reply_code(words, code) {
            return Err(Fault::Refused(code));
        }
        self.push_line(number, Line::Reply { value: expr })?;
        self.end_handler(alloc)?;
        Ok(())
    }
}
