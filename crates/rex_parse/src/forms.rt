//! The least code that fits a declaration.

ghost use Rattle.std.specs.Prelude.{◌≡◌, ◌∷◌, [], ◌<◌, length};
ghost use Rattle.rex_parse.specs.Table as table;
ghost use Rattle.rex_parse.specs.declared.language.Form.TheVariants as form;
ghost use Rattle.rex_parse.specs.Answers.{texts};

use crate::codes::{count_code, number_code};
use crate::language::{Above, Form, ServiceCode};
use crate::least::{fits, least};
use rex_syntax::locks::LOCKS;
use rex_syntax::service::{
    CONDITIONS, HANDLERS, LANES, LockKind, MOST_FIRST, PARAMETERS, SEMAPHORES, VARIABLES,
};

impl Above {
    // `lanes N`
    pub(crate) fn lanes_code(&self, words: &[&[u8]]) -> Option<ServiceCode>
        ensures { result ≡ table.form_code self.now form.Lanes (texts words.now) }
    {
        if self.is_open() {
            return Some(ServiceCode::Misplaced);
        }
        let [count] = words else {
            return Some(ServiceCode::BadForm);
        };
        least(
            count_code(1, LANES as u64, count),
            self.order_code(Form::Lanes),
        )
    }

    // `lock NAME`, `rwlock NAME`
    pub(crate) fn lock_form_code(&self, words: &[&[u8]]) -> Option<ServiceCode>
        ensures { result ≡ table.form_code self.now form.Lock (texts words.now) }
    {
        if self.is_open() {
            return Some(ServiceCode::Misplaced);
        }
        let [name] = words else {
            return Some(ServiceCode::BadForm);
        };
        let full = fits(self.locks.len() >= LOCKS, ServiceCode::TooMany);
        least(
            self.new_code(name),
            least(full, self.order_code(Form::Lock)),
        )
    }

    // `sem NAME = NUMBER`
    pub(crate) fn sem_code(&self, words: &[&[u8]]) -> Option<ServiceCode>
        ensures { result ≡ table.form_code self.now form.Sem (texts words.now) }
    {
        if self.is_open() {
            return Some(ServiceCode::Misplaced);
        }
        let [name, equals, first] = words else {
            return Some(ServiceCode::BadForm);
        };
        if *equals != b"=".as_slice() {
            return Some(ServiceCode::BadForm);
        }
        let full = fits(self.semaphores.len() >= SEMAPHORES, ServiceCode::TooMany);
        let first = count_code(0, MOST_FIRST as u64, first);
        least(
            least(self.new_code(name), first),
            least(full, self.order_code(Form::Sem)),
        )
    }

    // `cond NAME on LOCK`
    pub(crate) fn cond_code(&self, words: &[&[u8]]) -> Option<ServiceCode>
        ensures { result ≡ table.form_code self.now form.Cond (texts words.now) }
    {
        if self.is_open() {
            return Some(ServiceCode::Misplaced);
        }
        let [name, on, lock] = words else {
            return Some(ServiceCode::BadForm);
        };
        if *on != b"on".as_slice() {
            return Some(ServiceCode::BadForm);
        }
        let full = fits(self.conditions.len() >= CONDITIONS, ServiceCode::TooMany);
        let lock = self.lock_of_code(LockKind::Plain, lock);
        least(
            least(self.new_code(name), lock),
            least(full, self.order_code(Form::Cond)),
        )
    }

    // `var NAME on LOCK = NUMBER`
    pub(crate) fn var_code(&self, words: &[&[u8]]) -> Option<ServiceCode>
        ensures { result ≡ table.form_code self.now form.Var (texts words.now) }
    {
        if self.is_open() {
            return Some(ServiceCode::Misplaced);
        }
        let [name, on, lock, equals, number] = words else {
            return Some(ServiceCode::BadForm);
        };
        if *on != b"on".as_slice() || *equals != b"=".as_slice() {
            return Some(ServiceCode::BadForm);
        }
        let full = fits(self.variables.len() >= VARIABLES, ServiceCode::TooMany);
        let guard = least(self.lock_code(lock), number_code(number));
        least(
            least(self.new_code(name), guard),
            least(full, self.order_code(Form::Var)),
        )
    }

    // `handler NAME PARAM..`
    pub(crate) fn handler_code(&self, words: &[&[u8]]) -> Option<ServiceCode>
        ensures { result ≡ table.form_code self.now form.Handler (texts words.now) }
    {
        if self.is_open() {
            return Some(ServiceCode::Misplaced);
        }
        let [_, parameters @ ..] = words else {
            return Some(ServiceCode::BadForm);
        };
        if parameters.len() > PARAMETERS {
            return Some(ServiceCode::BadForm);
        }
        let full = fits(self.handlers.len() >= HANDLERS, ServiceCode::TooMany);
        least(
            self.heading_code(words),
            least(full, self.order_code(Form::Handler)),
        )
    }

    // A handler's name, and the names of its parameters.
    fn heading_code(&self, words: &[&[u8]]) -> Option<ServiceCode>
        requires { 0 < length words.now }
        ensures { table.slots_code self.now (table.Heading ∷ []) (texts words.now) ≡ result }
    {
        let mut code = self.new_code(words[0]);
        for i in 1..words.len() {
            code = least(code, self.parameter_code(&words[..i], words[i]));
        }
        code
    }
}
