//! The lines of a handler.

use crate::expr::Expr;

/// A line of a handler. Locks, semaphores, conditions, variables and locals are numbered from 0. A line that leads elsewhere
/// than to the next line has the number of that line in its handler, from 0.
#[derive(Drop)]
pub enum Line {
    /// Takes a lock of either kind exclusively.
    Acquire { lock: u8 },
    /// Takes a share of a readers-writer lock.
    Share { lock: u8 },
    /// Gives up a lock in the mode in which it is held.
    Release { lock: u8 },
    /// Takes a plain lock if no lane holds it, and else goes on at `busy`, the line after the word `busy`.
    Try { lock: u8, busy: u16 },
    /// Ends the first branch of a `try`, and goes on at its `endtry`.
    Busy { end: u16 },
    EndTry,
    /// Waits at the condition as long as the test isn't 0.
    Wait { condition: u8, test: Expr },
    /// Wakes the lane that has waited longest.
    Signal { condition: u8 },
    /// Wakes all lanes that wait.
    Broadcast { condition: u8 },
    /// Takes one off a semaphore's value, once that is above 0.
    Down { semaphore: u8 },
    /// Adds one to a semaphore's value.
    Up { semaphore: u8 },
    Set { variable: u16, value: Expr },
    Let { local: u8, value: Expr },
    /// A recorded read of the clock.
    Clock { local: u8 },
    /// A recorded read of the random generator.
    Random { local: u8 },
    /// Goes on at `otherwise` where the test is 0: the line after `else`, or the `endif` where there is none.
    If { test: Expr, otherwise: u16 },
    /// Ends the first branch of an `if`, and goes on at its `endif`.
    Else { end: u16 },
    EndIf,
    /// Runs the lines up to its `endrepeat` so many times. `after` is the line after that `endrepeat`.
    Repeat { turns: u16, after: u16 },
    EndRepeat,
    /// Ends the handler with the request's reply.
    Reply { value: Expr },
}
