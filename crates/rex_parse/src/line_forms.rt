//! The least code that fits a line of a handler that leads to the next one alone.

ghost use Rattle.std.specs.Prelude.{◌≡◌, ◌∷◌, [], drop};
ghost use Rattle.rex_parse.specs.Table as table;
ghost use Rattle.rex_parse.specs.declared.language.Form.TheVariants as form;
ghost use Rattle.rex_parse.specs.Answers.{texts};

use crate::language::{Above, Form, ServiceCode};
use crate::least::{fits, least};
use rex_syntax::service::{LOCALS, LockKind};

impl Above {
    // `acquire LOCK`, `release LOCK`
    pub(crate) fn acquire_code(&self, words: &[&[u8]]) -> Option<ServiceCode>
        ensures { result ≡ table.form_code self.now form.Acquire (texts words.now) }
    {
        if !self.is_open() {
            return Some(ServiceCode::Misplaced);
        }
        let [lock] = words else {
            return Some(ServiceCode::BadForm);
        };
        least(
            self.lock_code(lock),
            least(self.full_code(), self.order_code(Form::Acquire)),
        )
    }

    // `share LOCK`
    pub(crate) fn share_code(&self, words: &[&[u8]]) -> Option<ServiceCode>
        ensures { result ≡ table.form_code self.now form.Share (texts words.now) }
    {
        if !self.is_open() {
            return Some(ServiceCode::Misplaced);
        }
        let [lock] = words else {
            return Some(ServiceCode::BadForm);
        };
        least(
            self.lock_of_code(LockKind::ReadersWriter, lock),
            least(self.full_code(), self.order_code(Form::Share)),
        )
    }

    // `wait COND while EXPR`, where this is the expression's code
    pub(crate) fn wait_code(
        &self,
        words: &[&[u8]],
        test_code: Option<ServiceCode>,
    ) -> Option<ServiceCode>
        requires { test_code ≡ table.whole_expr_code self.now (drop 2 (texts words.now)) }
        ensures { result ≡ table.form_code self.now form.Wait (texts words.now) }
    {
        if !self.is_open() {
            return Some(ServiceCode::Misplaced);
        }
        let [condition, so_long_as, test @ ..] = words else {
            return Some(ServiceCode::BadForm);
        };
        if test.is_empty() || *so_long_as != b"while".as_slice() {
            return Some(ServiceCode::BadForm);
        }
        let limits = least(self.full_code(), self.order_code(Form::Wait));
        least(least(self.condition_code(condition), test_code), limits)
    }

    // `signal COND`, `broadcast COND`
    pub(crate) fn signal_code(&self, words: &[&[u8]]) -> Option<ServiceCode>
        ensures { result ≡ table.form_code self.now form.Signal (texts words.now) }
    {
        if !self.is_open() {
            return Some(ServiceCode::Misplaced);
        }
        let [condition] = words else {
            return Some(ServiceCode::BadForm);
        };
        least(
            self.condition_code(condition),
            least(self.full_code(), self.order_code(Form::Signal)),
        )
    }

    // `down SEM`, `up SEM`
    pub(crate) fn down_code(&self, words: &[&[u8]]) -> Option<ServiceCode>
        ensures { result ≡ table.form_code self.now form.Down (texts words.now) }
    {
        if !self.is_open() {
            return Some(ServiceCode::Misplaced);
        }
        let [semaphore] = words else {
            return Some(ServiceCode::BadForm);
        };
        least(
            self.semaphore_code(semaphore),
            least(self.full_code(), self.order_code(Form::Down)),
        )
    }

    // `set VAR = EXPR`, where this is the expression's code
    pub(crate) fn set_code(
        &self,
        words: &[&[u8]],
        value_code: Option<ServiceCode>,
    ) -> Option<ServiceCode>
        requires { value_code ≡ table.whole_expr_code self.now (drop 2 (texts words.now)) }
        ensures { result ≡ table.form_code self.now form.Set (texts words.now) }
    {
        if !self.is_open() {
            return Some(ServiceCode::Misplaced);
        }
        let [variable, equals, value @ ..] = words else {
            return Some(ServiceCode::BadForm);
        };
        if value.is_empty() || *equals != b"=".as_slice() {
            return Some(ServiceCode::BadForm);
        }
        let limits = least(self.full_code(), self.order_code(Form::Set));
        least(least(self.variable_code(variable), value_code), limits)
    }

    // `let LOCAL = EXPR`, where this is the expression's code
    pub(crate) fn let_code(
        &self,
        words: &[&[u8]],
        value_code: Option<ServiceCode>,
    ) -> Option<ServiceCode>
        requires { value_code ≡ table.whole_expr_code self.now (drop 2 (texts words.now)) }
        ensures { result ≡ table.form_code self.now form.Let (texts words.now) }
    {
        if !self.is_open() {
            return Some(ServiceCode::Misplaced);
        }
        let [local, equals, value @ ..] = words else {
            return Some(ServiceCode::BadForm);
        };
        if value.is_empty() || *equals != b"=".as_slice() {
            return Some(ServiceCode::BadForm);
        }
        let limits = least(self.new_local_code(local), self.full_code());
        least(
            least(self.local_code(local), value_code),
            least(limits, self.order_code(Form::Let)),
        )
    }

    // A local past the last.
    fn new_local_code(&self, word: &[u8]) -> Option<ServiceCode>
        ensures { result ≡ table.locals_code self.now (word.now ∷ []) }
    {
        let is_new = !self.is_local(word);
        fits(is_new && self.locals.len() >= LOCALS, ServiceCode::TooMany)
    }

    // `clock LOCAL`, `random LOCAL`
    pub(crate) fn clock_code(&self, words: &[&[u8]]) -> Option<ServiceCode>
        ensures { result ≡ table.form_code self.now form.Clock (texts words.now) }
    {
        if !self.is_open() {
            return Some(ServiceCode::Misplaced);
        }
        let [local] = words else {
            return Some(ServiceCode::BadForm);
        };
        let limits = least(self.new_local_code(local), self.full_code());
        least(
            self.local_code(local),
            least(limits, self.order_code(Form::Clock)),
        )
    }
}
