//! Expressions and their values.

ghost use Rattle.std.specs.Prelude.{◌≡◌, length};
ghost use Rattle.rex_syntax.specs.Expr.{applied, operand_value, OperandFits, expr_value, ExprFits, truth_value};

use rex_list::List;

/// How two values are joined. Sums, differences and products wrap at 64 bits.
#[derive(Clone, Copy, PartialEq, Eq, Debug)]
pub enum Operator {
    Add,
    Sub,
    Mul,
    Div,
    Rem,
    Equal,
    NotEqual,
    Less,
    LessEqual,
    Greater,
    GreaterEqual,
}

/// Where a value comes from. Locals and variables are numbered from 0.
#[derive(Clone, Copy, PartialEq, Eq, Debug)]
pub enum Operand {
    Number(i64),
    Local(u8),
    Variable(u16),
}

/// An operator and its right operand.
#[derive(Clone, Copy, PartialEq, Eq, Debug)]
pub struct Term {
    pub operator: Operator,
    pub operand: Operand,
}

/// Operands that are joined from left to right, with no precedence.
#[derive(Drop)]
pub struct Expr {
    pub first: Operand,
    pub rest: List<Term>,
}

impl Operator {
    /// The value of `left` and `right` joined. A division by 0 gives 0, and a remainder by 0 the left value; other
    /// divisions truncate toward zero; a comparison gives 1 or 0.
    pub fn apply(self, left: i64, right: i64) -> i64
        ensures { result ≡ applied self left right }
    {
        match self {
            Operator::Add => left.wrapping_add(right),
            Operator::Sub => left.wrapping_sub(right),
            Operator::Mul => left.wrapping_mul(right),
            Operator::Div => {
                if right == 0 {
                    0
                } else {
                    left.wrapping_div(right)
                }
            }
            Operator::Rem => {
                if right == 0 {
                    left
                } else {
                    left.wrapping_rem(right)
                }
            }
            Operator::Equal => truth(left == right),
            Operator::NotEqual => truth(left != right),
            Operator::Less => truth(left < right),
            Operator::LessEqual => truth(left <= right),
            Operator::Greater => truth(left > right),
            Operator::GreaterEqual => truth(left >= right),
        }
    }
}

fn truth(holds: bool) -> i64
    ensures { result ≡ truth_value holds }
{
    if holds { 1 } else { 0 }
}

impl Operand {
    pub fn value(self, locals: &[i64], variables: &[i64]) -> i64
        requires { OperandFits (length locals.now) (length variables.now) self }
        ensures { result ≡ operand_value self locals.now variables.now }
    {
        match self {
            Operand::Number(number) => number,
            Operand::Local(index) => locals[index as usize],
            Operand::Variable(index) => variables[index as usize],
        }
    }
}

impl Expr {
    pub fn value(&self, locals: &[i64], variables: &[i64]) -> i64
        requires { ExprFits (length locals.now) (length variables.now) self.now }
        ensures { result ≡ expr_value self.now locals.now variables.now }
    {
        let mut value = self.first.value(locals, variables);
        for term in self.rest.as_slice() {
            value = term
                .operator
                .apply(value, term.operand.value(locals, variables));
        }
        value
    }
}
