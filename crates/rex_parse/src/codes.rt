//! The codes that fit the words of a line.

ghost use Rattle.std.specs.Prelude.{◌≡◌, ◌∷◌, [], ◌<◌, length, slice_get, count_by, true, IfSome};
ghost use Rattle.rex_parse.specs.Table as table;
ghost use Rattle.rex_parse.specs.Above.{meaning_of, blocks_of};
ghost use Rattle.rex_parse.specs.Answers.{texts};
ghost use Rattle.rex_parse.specs.Words.{is_name};

use crate::language::{Above, Form, Meaning, ServiceCode};
use crate::least::{fits, least};
use crate::names::is_name_of;
use crate::words::{begins_number, count_of, is_among, is_name, operator_of};
use rex_syntax::service::{LINES, LOOPS, LockKind, OPERANDS};
use rex_text::read_i64;

/// The most words of an expression: its operands, and an operator between each two.
pub(crate) const EXPRESSION_WORDS: usize = 2 * OPERANDS - 1;

impl Above {
    /// Of a name that a line declares.
    #[tactic(auto, unfolding(crate::specs::Table::new_code))]
    pub(crate) fn new_code(&self, word: &[u8]) -> Option<ServiceCode>
        ensures { result ≡ table.new_code self.now word.now }
    {
        if !is_name(word) {
            return Some(ServiceCode::NoName);
        }
        fits(self.is_declared(word), ServiceCode::Taken)
    }

    // Of a parameter, after the handler's name and the parameters before it.
    pub(crate) fn parameter_code(&self, before: &[&[u8]], word: &[u8]) -> Option<ServiceCode>
        ensures { result ≡ table.parameter_code self.now (texts before.now) word.now }
    {
        if !is_name(word) {
            return Some(ServiceCode::NoName);
        }
        let is_taken = self.is_declared(word) || is_among(before, word);
        fits(is_taken, ServiceCode::Taken)
    }

    // Of a word that is due to name something declared, whatever that is, given what it stands for.
    fn named_code(&self, word: &[u8], meaning: Option<Meaning>) -> Option<ServiceCode>
        requires { IfSome meaning (λ _. is_name word.now ≡ true) }
        ensures { result ≡ table.named_code self.now word.now }
    {
        if !is_name_of(word, meaning) {
            return Some(ServiceCode::NoName);
        }
        fits(self.is_local(word), ServiceCode::WrongKind)
    }

    /// Of a lock's name.
    #[tactic(auto, unfolding(crate::specs::Table::lock_code))]
    pub(crate) fn lock_code(&self, word: &[u8]) -> Option<ServiceCode>
        ensures { result ≡ table.lock_code self.now word.now }
    {
        let meaning = self.meaning_of(word);
        self.named_code(word, meaning)
            .or(of_kind_code(is_lock(meaning), meaning))
    }

    // Whether a lock is there and of the kind.
    fn is_of_kind(&self, kind: LockKind, lock: u8) -> bool
        ensures { result ≡ table.is_of_kind kind (slice_get self.now.locks lock) }
    {
        match self.locks.as_slice().get(lock as usize) {
            None => false,
            Some(lock) => is_same_kind(kind, lock.kind),
        }
    }

    // Whether a name stands for a lock of a kind.
    fn is_lock_of(&self, kind: LockKind, meaning: Option<Meaning>) -> bool
        ensures { result ≡ table.is_lock_of self.now kind meaning }
    {
        match meaning {
            Some(Meaning::Lock(lock)) => self.is_of_kind(kind, lock),
            _ => false,
        }
    }

    /// Of the name of a lock of a kind.
    #[tactic(auto, unfolding(crate::specs::Table::lock_of_code))]
    pub(crate) fn lock_of_code(&self, kind: LockKind, word: &[u8]) -> Option<ServiceCode>
        ensures { result ≡ table.lock_of_code self.now kind word.now }
    {
        let meaning = self.meaning_of(word);
        self.named_code(word, meaning)
            .or(of_kind_code(self.is_lock_of(kind, meaning), meaning))
    }

    /// Of a semaphore's name.
    #[tactic(auto, unfolding(crate::specs::Table::semaphore_code))]
    pub(crate) fn semaphore_code(&self, word: &[u8]) -> Option<ServiceCode>
        ensures { result ≡ table.semaphore_code self.now word.now }
    {
        let meaning = self.meaning_of(word);
        self.named_code(word, meaning)
            .or(of_kind_code(is_semaphore(meaning), meaning))
    }

    /// Of a condition's name.
    #[tactic(auto, unfolding(crate::specs::Table::condition_code))]
    pub(crate) fn condition_code(&self, word: &[u8]) -> Option<ServiceCode>
        ensures { result ≡ table.condition_code self.now word.now }
    {
        let meaning = self.meaning_of(word);
        self.named_code(word, meaning)
            .or(of_kind_code(is_condition(meaning), meaning))
    }

    /// Of a variable's name.
    #[tactic(auto, unfolding(crate::specs::Table::variable_code))]
    pub(crate) fn variable_code(&self, word: &[u8]) -> Option<ServiceCode>
        ensures { result ≡ table.variable_code self.now word.now }
    {
        let meaning = self.meaning_of(word);
        self.named_code(word, meaning)
            .or(variable_kind_code(meaning))
    }

    /// Of a local's name, which may be new.
    #[tactic(auto, unfolding(crate::specs::Table::local_code))]
    pub(crate) fn local_code(&self, word: &[u8]) -> Option<ServiceCode>
        ensures { result ≡ table.local_code self.now word.now }
    {
        if !is_name(word) {
            return Some(ServiceCode::NoName);
        }
        let is_other = !self.is_local(word) && self.is_declared(word);
        fits(is_other, ServiceCode::WrongKind)
    }

    /// Of an operand.
    fn operand_code(&self, word: &[u8]) -> Option<ServiceCode>
        ensures { result ≡ table.operand_code self.now word.now }
    {
        if begins_number(word) {
            return number_code(word);
        }
        if !is_name(word) {
            return Some(ServiceCode::BadExpression);
        }
        if self.is_local(word) {
            return None;
        }
        variable_kind_code(self.meaning_of(word))
    }

    // Of operands at the first, third, fifth place and so on, and operators at the others.
    fn expr_code(&self, words: &[&[u8]]) -> Option<ServiceCode>
        ensures { result ≡ table.expr_code self.now (texts words.now) }
    {
        let mut code = None;
        let mut rest = words;
        while let [word, operator, after @ ..] = rest {
            let pair = least(self.operand_code(word), operator_code(operator));
            code = least(code, pair);
            rest = after;
        }
        least(code, self.last_code(rest))
    }

    #[tactic(auto, unfolding(crate::specs::Table::expr_code))]
    fn last_code(&self, words: &[&[u8]]) -> Option<ServiceCode>
        requires { length words.now < 2 }
        ensures { result ≡ table.expr_code self.now (texts words.now) }
    {
        match words {
            [] => Some(ServiceCode::BadExpression),
            [word, ..] => self.operand_code(word),
        }
    }

    /// Of an expression.
    pub(crate) fn whole_expr_code(&self, words: &[&[u8]]) -> Option<ServiceCode>
        ensures { result ≡ table.whole_expr_code self.now (texts words.now) }
    {
        let too_long = fits(words.len() > EXPRESSION_WORDS, ServiceCode::BadExpression);
        least(too_long, self.expr_code(words))
    }

    /// Of the order of lines: `lanes` first, and once.
    pub(crate) fn order_code(&self, form: Form) -> Option<ServiceCode>
        ensures { result ≡ table.order_code self.now form }
    {
        let is_lanes = matches!(form, Form::Lanes);
        let is_set = self.lanes.is_some();
        let is_wrong = (!is_set && !is_lanes) || (is_set && is_lanes);
        fits(is_wrong, ServiceCode::LanesFirst)
    }

    /// Of a line of a handler past its last.
    pub(crate) fn full_code(&self) -> Option<ServiceCode>
        ensures { result ≡ table.full_code self.now }
    {
        fits(self.open_line_count() >= LINES, ServiceCode::TooMany)
    }

    fn open_line_count(&self) -> usize
        ensures { result ≡ table.lines_of_open self.now.open_handler }
    {
        match &self.open_handler {
            None => 0,
            Some(handler) => handler.lines.len(),
        }
    }

    /// Of a `repeat` inside as many as there may be.
    pub(crate) fn loops_code(&self) -> Option<ServiceCode>
        ensures { result ≡ table.loops_code self.now }
    {
        fits(self.open_loop_count() >= LOOPS, ServiceCode::TooDeep)
    }

    fn open_loop_count(&self) -> usize
        ensures { result ≡ count_by table.is_loop (blocks_of self.now) }
    {
        match &self.open_handler {
            None => 0,
            Some(handler) => handler.blocks.loops(),
        }
    }

    /// Of a `reply` inside a block.
    pub(crate) fn inside_code(&self) -> Option<ServiceCode>
        ensures { result ≡ table.inside_code self.now }
    {
        fits(self.innermost().is_some(), ServiceCode::ReplyInBlock)
    }
}

fn is_same_kind(kind: LockKind, other: LockKind) -> bool
    ensures { result ≡ table.is_same_kind kind other }
{
    kind == other
}

/// Of a signed number.
#[tactic(auto, unfolding(crate::specs::Table::number_code))]
pub(crate) fn number_code(word: &[u8]) -> Option<ServiceCode>
    ensures { result ≡ table.number_code word.now }
{
    fits(read_i64(word).is_none(), ServiceCode::NoNumber)
}

/// Of a number from `least` to `most`.
pub(crate) fn count_code(least: u64, most: u64, word: &[u8]) -> Option<ServiceCode>
    ensures { result ≡ table.count_code least most word.now }
{
    fits(count_of(least, most, word).is_none(), ServiceCode::NoNumber)
}

// Of a name that is due to stand for something of a kind, by what it stands for and whether that is of the kind.
fn of_kind_code(is_of_it: bool, meaning: Option<Meaning>) -> Option<ServiceCode>
    ensures { result ≡ table.of_kind_code is_of_it meaning }
{
    match meaning {
        None => Some(ServiceCode::Undeclared),
        Some(_) => fits(!is_of_it, ServiceCode::WrongKind),
    }
}

fn is_lock(meaning: Option<Meaning>) -> bool
    ensures { result ≡ table.is_lock meaning }
{
    matches!(meaning, Some(Meaning::Lock(_)))
}

fn is_semaphore(meaning: Option<Meaning>) -> bool
    ensures { result ≡ table.is_semaphore meaning }
{
    matches!(meaning, Some(Meaning::Semaphore(_)))
}

fn is_condition(meaning: Option<Meaning>) -> bool
    ensures { result ≡ table.is_condition meaning }
{
    matches!(meaning, Some(Meaning::Condition(_)))
}

fn is_variable(meaning: Option<Meaning>) -> bool
    ensures { result ≡ table.is_variable meaning }
{
    matches!(meaning, Some(Meaning::Variable(_)))
}

/// Of a name that is due to stand for a variable, by what it stands for.
pub(crate) fn variable_kind_code(meaning: Option<Meaning>) -> Option<ServiceCode>
    ensures { result ≡ table.variable_kind_code meaning }
{
    of_kind_code(is_variable(meaning), meaning)
}

/// Of an operator.
pub(crate) fn operator_code(word: &[u8]) -> Option<ServiceCode>
    ensures { result ≡ table.operator_code word.now }
{
    fits(operator_of(word).is_none(), ServiceCode::BadExpression)
}
