//! Expressions, as lines have them.

ghost use Rattle.std.specs.Prelude.{◌≡◌, ◌≤◌, ◌<◌, [], length, IfOk, None, Some, if◌then◌else◌, unwrap_or};
ghost use Rattle.rex_syntax.specs.declared.expr.Operand.TheVariants as operand;
ghost use Rattle.rex_syntax.specs.declared.expr.Operator.TheVariants as operator;
ghost use Rattle.rex_parse.specs.After as after;
ghost use Rattle.rex_parse.specs.Following as following;
ghost use Rattle.rex_parse.specs.Table as table;
ghost use Rattle.rex_parse.specs.Above.{meaning_of, nothing};
ghost use Rattle.rex_parse.specs.Answers.{texts};
ghost use Rattle.rex_parse.specs.Words.{is_name};
ghost use Rattle.rex_parse.specs.declared.language.ServiceCode.TheVariants as refused;

use crate::codes::{EXPRESSION_WORDS, operator_code, variable_kind_code};
use crate::language::{Above, Meaning, ServiceCode};
use crate::least::{fits, least};
use crate::names::is_name_of;
use crate::words::{begins_number, is_name, operator_of};
use rex_list::List;
use rex_syntax::expr::{Expr, Operand, Operator, Term};
use rex_syntax::service::LOCALS;
use rex_text::read_i64;
use std::alloc::{AllocError, Global};

impl Above {
    /// The number of a lock.
    pub(crate) fn lock_number(&self, word: &[u8]) -> u8
        ensures { result ≡ after.lock_number (meaning_of self.now word.now) }
    {
        match self.meaning_of(word) {
            Some(Meaning::Lock(number)) => number,
            _ => 0,
        }
    }

    /// The number of a semaphore.
    pub(crate) fn semaphore_number(&self, word: &[u8]) -> u8
        ensures { result ≡ after.semaphore_number (meaning_of self.now word.now) }
    {
        match self.meaning_of(word) {
            Some(Meaning::Semaphore(number)) => number,
            _ => 0,
        }
    }

    /// The number of a condition.
    pub(crate) fn condition_number(&self, word: &[u8]) -> u8
        ensures { result ≡ after.condition_number (meaning_of self.now word.now) }
    {
        match self.meaning_of(word) {
            Some(Meaning::Condition(number)) => number,
            _ => 0,
        }
    }

    /// The number of a variable.
    pub(crate) fn variable_number(&self, word: &[u8]) -> u16
        ensures { result ≡ after.variable_number (meaning_of self.now word.now) }
    {
        variable_number(self.meaning_of(word))
    }

    /// The expression that words spell, with the least code that fits them. Each word is looked up once.
    pub(crate) fn read_expr(&self, alloc: Global, words: &[&[u8]]) -> Result<ReadExpr, AllocError>
        requires { length self.now.locals ≤ LOCALS }
        ensures code { IfOk result (λ r. r.code ≡ table.whole_expr_code self.now (texts words.now)) }
        ensures expr { IfOk result (λ r. r.code ≡ None → r.expr ≡ after.expr_of self.now (texts words.now)) }
    {
        if words.len() > EXPRESSION_WORDS {
            let code = self.whole_expr_code(words);
            return Ok(ReadExpr {
                code,
                expr: zero(alloc),
            });
        }
        self.read_short_expr(alloc, words)
    }

    // No more words than an expression may have.
    fn read_short_expr(&self, alloc: Global, words: &[&[u8]]) -> Result<ReadExpr, AllocError>
        requires few { length self.now.locals ≤ LOCALS }
        requires short { length words.now ≤ EXPRESSION_WORDS }
        ensures code { IfOk result (λ r. r.code ≡ table.whole_expr_code self.now (texts words.now)) }
        ensures expr { IfOk result (λ r. r.expr ≡ after.expr_of self.now (texts words.now)) }
    {
        let [first, rest @ ..] = words else {
            return Ok(ReadExpr {
                code: Some(ServiceCode::BadExpression),
                expr: zero(alloc),
            });
        };
        let first = self.read_operand(first);
        let rest = self.read_terms(alloc, rest)?;
        Ok(ReadExpr {
            code: least(first.code, rest.code),
            expr: Expr {
                first: first.operand,
                rest: rest.terms,
            },
        })
    }

    // An operator and the operand after it, and so on.
    fn read_terms(&self, alloc: Global, words: &[&[u8]]) -> Result<ReadTerms, AllocError>
        requires { length self.now.locals ≤ LOCALS }
        ensures code { IfOk result (λ r. r.code ≡ following.rest_code self.now (texts words.now)) }
        ensures terms { IfOk result (λ r. r.terms ≡ after.terms_of self.now (texts words.now)) }
    {
        let mut terms = List::new(alloc);
        let mut code = None;
        let mut rest = words;
        while let [operator, word, more @ ..] = rest {
            let operator = read_operator(operator);
            let operand = self.read_operand(word);
            let pair = least(operator.code, operand.code);
            code = least(code, pair);
            terms.push(Term {
                operator: operator.operator,
                operand: operand.operand,
            })?;
            rest = more;
        }
        let code = least(code, self.end_of_terms_code(rest));
        Ok(ReadTerms { code, terms })
    }

    // Of what is left when fewer than two words are.
    #[tactic(auto, unfolding(crate::specs::Table::expr_code))]
    fn end_of_terms_code(&self, words: &[&[u8]]) -> Option<ServiceCode>
        requires { length words.now < 2 }
        ensures { result ≡ following.rest_code self.now (texts words.now) }
    {
        match words {
            [] => None,
            [operator, ..] => least(operator_code(operator), Some(ServiceCode::BadExpression)),
        }
    }

    #[tactic(auto, unfolding(crate::specs::Table::number_code))]
    fn read_operand(&self, word: &[u8]) -> ReadOperand
        requires { length self.now.locals ≤ LOCALS }
        ensures code { result.code ≡ table.operand_code self.now word.now }
        ensures operand { result.operand ≡ after.operand_of self.now word.now }
    {
        if begins_number(word) {
            let number = read_i64(word);
            return ReadOperand {
                code: fits(number.is_none(), ServiceCode::NoNumber),
                operand: Operand::Number(number.unwrap_or(0)),
            };
        }
        if self.is_local(word) {
            return ReadOperand {
                code: fits(!is_name(word), ServiceCode::BadExpression),
                operand: Operand::Local(self.local_place(word) as u8),
            };
        }
        self.read_variable(word)
    }

    // A word that is no number and no local.
    fn read_variable(&self, word: &[u8]) -> ReadOperand
        ensures code { result.code ≡ (if is_name word.now then table.variable_kind_code (meaning_of self.now word.now) else Some refused.BadExpression) }
        ensures operand { result.operand ≡ operand.Variable (after.variable_number (meaning_of self.now word.now)) }
    {
        let meaning = self.meaning_of(word);
        let code = if is_name_of(word, meaning) {
            variable_kind_code(meaning)
        } else {
            Some(ServiceCode::BadExpression)
        };
        ReadOperand {
            code,
            operand: Operand::Variable(variable_number(meaning)),
        }
    }
}

/// What the words of an expression come to.
#[derive(Drop)]
pub(crate) struct ReadExpr {
    /// The least code that fits them.
    pub(crate) code: Option<ServiceCode>,
    /// The expression, where no code fits.
    pub(crate) expr: Expr,
}

/// What the words after an expression's first operand come to.
#[derive(Drop)]
struct ReadTerms {
    code: Option<ServiceCode>,
    terms: List<Term>,
}

/// What a word comes to as an operand.
#[derive(Clone, Copy)]
struct ReadOperand {
    code: Option<ServiceCode>,
    operand: Operand,
}

/// What a word comes to as an operator.
#[derive(Clone, Copy)]
struct ReadOperator {
    code: Option<ServiceCode>,
    operator: Operator,
}

// A word between two operands, looked up once.
fn read_operator(word: &[u8]) -> ReadOperator
    ensures code { result.code ≡ table.operator_code word.now }
    ensures operator { result.operator ≡ unwrap_or (table.operator_of word.now) operator.Add }
{
    match operator_of(word) {
        Some(operator) => ReadOperator {
            code: None,
            operator,
        },
        None => ReadOperator {
            code: Some(ServiceCode::BadExpression),
            operator: Operator::Add,
        },
    }
}

// The expression of no words.
fn zero(alloc: Global) -> Expr
    ensures { result ≡ after.expr_of nothing [] }
{
    Expr {
        first: Operand::Number(0),
        rest: List::new(alloc),
    }
}

// The number of what a name stands for, where that is a variable.
fn variable_number(meaning: Option<Meaning>) -> u16
    ensures { result ≡ after.variable_number meaning }
{
    match meaning {
        Some(Meaning::Variable(number)) => number,
        _ => 0,
    }
}
