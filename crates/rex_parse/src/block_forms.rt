//! The least code that fits a line of a handler that opens, divides or closes a block, or ends the handler.

ghost use Rattle.std.specs.Prelude.{◌≡◌};
ghost use Rattle.rex_parse.specs.Table as table;
ghost use Rattle.rex_parse.specs.declared.language.Form.TheVariants as form;
ghost use Rattle.rex_parse.specs.Answers.{texts};

use crate::codes::count_code;
use crate::language::{Above, Form, ServiceCode};
use crate::least::least;
use rex_syntax::service::{LockKind, TURNS};

impl Above {
    // `try LOCK`
    pub(crate) fn try_code(&self, words: &[&[u8]]) -> Option<ServiceCode>
        ensures { result ≡ table.form_code self.now form.Try (texts words.now) }
    {
        if !self.is_open() {
            return Some(ServiceCode::Misplaced);
        }
        let [lock] = words else {
            return Some(ServiceCode::BadForm);
        };
        least(
            self.lock_of_code(LockKind::Plain, lock),
            least(self.full_code(), self.order_code(Form::Try)),
        )
    }

    // `if EXPR`, where this is the expression's code
    pub(crate) fn if_code(
        &self,
        words: &[&[u8]],
        test_code: Option<ServiceCode>,
    ) -> Option<ServiceCode>
        requires { test_code ≡ table.whole_expr_code self.now (texts words.now) }
        ensures { result ≡ table.form_code self.now form.If (texts words.now) }
    {
        if !self.is_open() {
            return Some(ServiceCode::Misplaced);
        }
        if words.is_empty() {
            return Some(ServiceCode::BadForm);
        }
        least(
            test_code,
            least(self.full_code(), self.order_code(Form::If)),
        )
    }

    // `repeat K`
    pub(crate) fn repeat_code(&self, words: &[&[u8]]) -> Option<ServiceCode>
        ensures { result ≡ table.form_code self.now form.Repeat (texts words.now) }
    {
        if !self.is_open() {
            return Some(ServiceCode::Misplaced);
        }
        let [turns] = words else {
            return Some(ServiceCode::BadForm);
        };
        let limits = least(self.loops_code(), self.full_code());
        least(
            count_code(1, TURNS as u64, turns),
            least(limits, self.order_code(Form::Repeat)),
        )
    }

    // `busy`, `endtry`, `else`, `endif`, `endrepeat`
    pub(crate) fn wordless_code(&self, form: Form, words: &[&[u8]]) -> Option<ServiceCode>
        ensures { result ≡ table.wordless_code self.now form (texts words.now) }
    {
        if !self.is_placed(form) {
            return Some(ServiceCode::Misplaced);
        }
        if !words.is_empty() {
            return Some(ServiceCode::BadForm);
        }
        least(self.full_code(), self.order_code(Form::Busy))
    }

    // `reply EXPR`, where this is the expression's code
    pub(crate) fn reply_code(
        &self,
        words: &[&[u8]],
        value_code: Option<ServiceCode>,
    ) -> Option<ServiceCode>
        requires { value_code ≡ table.whole_expr_code self.now (texts words.now) }
        ensures { result ≡ table.form_code self.now form.Reply (texts words.now) }
    {
        if !self.is_open() {
            return Some(ServiceCode::Misplaced);
        }
        if words.is_empty() {
            return Some(ServiceCode::BadForm);
        }
        let limits = least(self.full_code(), self.inside_code());
        least(value_code, least(limits, self.order_code(Form::Reply)))
    }
}
