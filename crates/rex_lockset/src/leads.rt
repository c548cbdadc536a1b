//! Where a line leads with what is held.

ghost use Rattle.std.specs.Prelude.{◌≡◌, ◌<◌, length};
ghost use Rattle.rex_syntax.specs.Expr.{OperandFits};
ghost use Rattle.rex_syntax.specs.Service.{IsService, ExprNames, LineNames};
ghost use Rattle.rex_syntax.specs.Locks.{is_above, with_mode};
ghost use Rattle.rex_syntax.specs.Leads.{guard_of, lock_of, operand_is_held, expr_is_held, on, fork, jump, nowhere, only_if, leads_of};

use rex_syntax::expr::{Expr, Operand};
use rex_syntax::flow::{CheckCode, Leads, Target};
use rex_syntax::line::Line;
use rex_syntax::locks::{LOCKS, Lockset, Mode};
use rex_syntax::service::{Declarations, LOCALS};

/// The lock that guards a variable.
fn guard(service: &Declarations, variable: u16) -> u8
    requires sound { IsService service.now }
    requires there { variable < length service.now.variables }
    ensures value { result ≡ guard_of service.now variable }
    ensures lock { result < LOCKS }
{
    service.variables.as_slice()[variable as usize].guard
}

/// The lock of a condition.
fn condition_lock(service: &Declarations, condition: u8) -> u8
    requires sound { IsService service.now }
    requires there { condition < length service.now.conditions }
    ensures value { result ≡ lock_of service.now condition }
    ensures lock { result < LOCKS }
{
    service.conditions.as_slice()[condition as usize].lock
}

/// Whether what is read may be read.
fn operand_is_held(service: &Declarations, held: &Lockset, operand: Operand) -> bool
    requires sound { IsService service.now }
    requires names { OperandFits LOCALS (length service.now.variables) operand }
    ensures { result ≡ operand_is_held service.now held.now operand }
{
    match operand {
        Operand::Number(_) | Operand::Local(_) => true,
        Operand::Variable(index) => held.mode(guard(service, index)) != Mode::Free,
    }
}

/// Whether every variable that is read may be read.
fn expr_is_held(service: &Declarations, held: &Lockset, expr: &Expr) -> bool
    requires sound { IsService service.now }
    requires names { ExprNames service.now LOCALS expr.now }
    ensures { result ≡ expr_is_held service.now held.now expr.now }
{
    if !operand_is_held(service, held, expr.first) {
        return false;
    }
    for term in expr.rest.as_slice() {
        if !operand_is_held(service, held, term.operand) {
            return false;
        }
    }
    true
}

/// It leads to the next line alone.
fn on(held: Lockset) -> Leads
    ensures { result ≡ on held }
{
    Leads {
        next: Some(held),
        other: Target {
            line: 0,
            held: None,
        },
    }
}

/// It leads to the next line, and to another one.
fn fork(held: Lockset, line: u16, other: Lockset) -> Leads
    ensures { result ≡ fork held line other }
{
    Leads {
        next: Some(held),
        other: Target {
            line,
            held: Some(other),
        },
    }
}

/// It leads to another line alone.
fn jump(held: Lockset, line: u16) -> Leads
    ensures { result ≡ jump held line }
{
    Leads {
        next: None,
        other: Target {
            line,
            held: Some(held),
        },
    }
}

/// It leads nowhere.
pub(crate) fn nowhere() -> Leads
    ensures { result ≡ nowhere }
{
    Leads {
        next: None,
        other: Target {
            line: 0,
            held: None,
        },
    }
}

/// It leads there where the test holds, and is refused otherwise.
fn only_if(holds: bool, leads: Leads, code: CheckCode) -> Result<Leads, CheckCode>
    ensures { result ≡ only_if holds leads code }
{
    if holds { Ok(leads) } else { Err(code) }
}

/// After a lock is taken, whose number has to be above those of all held locks.
fn taken(held: Lockset, lock: u8, mode: Mode) -> Result<Leads, CheckCode>
    requires { lock < LOCKS }
    ensures { result ≡ only_if (is_above held lock) (on (with_mode held lock mode)) CheckCode.OutOfOrder }
{
    only_if(
        held.is_above(lock),
        on(held.with(lock, mode)),
        CheckCode::OutOfOrder,
    )
}

/// It leads there where the expression reads no variable whose guard isn't held.
fn if_read(
    service: &Declarations,
    value: &Expr,
    held: &Lockset,
    leads: Leads,
) -> Result<Leads, CheckCode>
    requires sound { IsService service.now }
    requires names { ExprNames service.now LOCALS value.now }
    ensures { result ≡ only_if (expr_is_held service.now held.now value.now) leads CheckCode.UnguardedRead }
{
    only_if(
        expr_is_held(service, held, value),
        leads,
        CheckCode::UnguardedRead,
    )
}

fn after_wait(
    service: &Declarations,
    condition: u8,
    test: &Expr,
    held: Lockset,
) -> Result<Leads, CheckCode>
    requires sound { IsService service.now }
    requires names { LineNames service.now LOCALS (Line.Wait condition test.now) }
    ensures { result ≡ leads_of service.now (Line.Wait condition test.now) held }
{
    if !held.is_only(condition_lock(service, condition)) {
        return Err(CheckCode::ConditionLock);
    }
    if_read(service, test, &held, on(held))
}

fn after_set(
    service: &Declarations,
    variable: u16,
    value: &Expr,
    held: Lockset,
) -> Result<Leads, CheckCode>
    requires sound { IsService service.now }
    requires names { LineNames service.now LOCALS (Line.Set variable value.now) }
    ensures { result ≡ leads_of service.now (Line.Set variable value.now) held }
{
    if !expr_is_held(service, &held, value) {
        return Err(CheckCode::UnguardedRead);
    }
    only_if(
        held.mode(guard(service, variable)) == Mode::Exclusive,
        on(held),
        CheckCode::UnguardedWrite,
    )
}

fn after_reply(service: &Declarations, value: &Expr, held: Lockset) -> Result<Leads, CheckCode>
    requires sound { IsService service.now }
    requires names { LineNames service.now LOCALS (Line.Reply value.now) }
    ensures { result ≡ leads_of service.now (Line.Reply value.now) held }
{
    if !expr_is_held(service, &held, value) {
        return Err(CheckCode::UnguardedRead);
    }
    only_if(held.is_empty(), nowhere(), CheckCode::HeldAtReply)
}

/// Where a line leads with what is held, or why it is refused.
pub fn leads_from(service: &Declarations, line: &Line, held: Lockset) -> Result<Leads, CheckCode>
    requires sound { IsService service.now }
    requires names { LineNames service.now LOCALS line.now }
    ensures { result ≡ leads_of service.now line.now held }
{
    match line {
        Line::Acquire { lock } => taken(held, *lock, Mode::Exclusive),
        Line::Share { lock } => taken(held, *lock, Mode::Shared),
        Line::Release { lock } => only_if(
            held.mode(*lock) != Mode::Free,
            on(held.with(*lock, Mode::Free)),
            CheckCode::NotHeld,
        ),
        Line::Try { lock, busy } => only_if(
            held.mode(*lock) == Mode::Free,
            fork(held.with(*lock, Mode::Exclusive), *busy, held),
            CheckCode::OutOfOrder,
        ),
        Line::Wait { condition, test } => after_wait(service, *condition, test, held),
        Line::Signal { condition } | Line::Broadcast { condition } => only_if(
            held.mode(condition_lock(service, *condition)) == Mode::Exclusive,
            on(held),
            CheckCode::ConditionLock,
        ),
        Line::Down { .. } => only_if(held.is_empty(), on(held), CheckCode::HeldAtDown),
        Line::Set { variable, value } => after_set(service, *variable, value, held),
        Line::Let { value, .. } => if_read(service, value, &held, on(held)),
        Line::If { test, otherwise } => {
            if_read(service, test, &held, fork(held, *otherwise, held))
        }
        Line::Else { end } | Line::Busy { end } => Ok(jump(held, *end)),
        Line::Repeat { after, .. } => Ok(fork(held, after.saturating_sub(1), held)),
        Line::Up { .. }
        | Line::Clock { .. }
        | Line::Random { .. }
        | Line::EndIf
        | Line::EndTry
        | Line::EndRepeat => Ok(on(held)),
        Line::Reply { value } => after_reply(service, value, held),
    }
}
