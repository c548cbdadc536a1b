//! Blocks that begin and end, and the lines that lead to their ends.

ghost use Rattle.std.specs.Prelude.{◌≡◌, ◌<◌, length, OnOk};
ghost use Rattle.rex_parse.specs.Table as table;
ghost use Rattle.rex_parse.specs.After as after;

use crate::blocks::{BlockKind, OpenBlock};
use crate::language::{Above, OpenHandler};
use rex_list::List;
use rex_syntax::line::Line;
use rex_syntax::service::LINES;
use std::alloc::{AllocError, Global};
use std::mem;

// A line that leads elsewhere than to the next line leads to this one now.
fn lead_to(line: &mut Line, target: u16)
    ensures { line.new ≡ after.led_to target line.old }
{
    match line {
        Line::If { otherwise, .. } => *otherwise = target,
        Line::Else { end } => *end = target,
        Line::Try { busy, .. } => *busy = target,
        Line::Busy { end } => *end = target,
        Line::Repeat { after, .. } => *after = target,
        _ => {}
    }
}

// The line at a place leads to the target now.
fn lead_at(lines: &mut [Line], place: usize, target: u16)
    ensures { lines.new ≡ after.with_target lines.old place target }
{
    if place < lines.len() {
        lead_to(&mut lines[place], target);
    }
}

impl OpenHandler {
    // The next line opens a block.
    fn begin(&mut self, kind: BlockKind) -> Result<(), AllocError>
        requires { length self.old.lines < LINES }
        ensures { OnOk result (self.new ≡ after.block_opens kind self.old) }
    {
        let line = self.lines.len() as u16;
        self.blocks.begin(OpenBlock { kind, line })
    }

    // The innermost open block ends, and its line leads to the target.
    fn end(&mut self, alloc: Global, target: u16)
        ensures ended { self.new ≡ after.block_ends target self.old }
        ensures as_many { length self.new.lines ≡ length self.old.lines }
    {
        if let Some(block) = self.blocks.end() {
            let mut lines = mem::replace(&mut self.lines, List::new(alloc)).into_vec();
            lead_at(&mut lines, block.line as usize, target);
            self.lines = List::from_vec(lines);
        }
    }

    fn open(&mut self, number: u32, kind: BlockKind, line: Line) -> Result<(), AllocError>
        requires { length self.old.lines < LINES }
        ensures { OnOk result (self.new ≡ after.opening kind number line self.old) }
    {
        self.begin(kind)?;
        self.push(number, line)
    }

    fn divide(
        &mut self,
        alloc: Global,
        number: u32,
        kind: BlockKind,
        line: Line,
    ) -> Result<(), AllocError>
        requires { length self.old.lines < LINES }
        ensures { OnOk result (self.new ≡ after.dividing kind number line self.old) }
    {
        let next = self.lines.len() as u16 + 1;
        self.end(alloc, next);
        self.begin(kind)?;
        self.push(number, line)
    }

    fn close(
        &mut self,
        alloc: Global,
        number: u32,
        further: u16,
        line: Line,
    ) -> Result<(), AllocError>
        requires room { length self.old.lines < LINES }
        requires near { further < 2 }
        ensures { OnOk result (self.new ≡ after.closing further number line self.old) }
    {
        let target = self.lines.len() as u16 + further;
        self.end(alloc, target);
        self.push(number, line)
    }
}

impl Above {
    // A line that opens a block.
    pub(crate) fn open_block(
        &mut self,
        number: u32,
        kind: BlockKind,
        line: Line,
    ) -> Result<(), AllocError>
        requires { table.lines_of_open self.old.open_handler < LINES }
        ensures taken { OnOk result (self.new ≡ after.with_open self.old (after.opening kind number line)) }
        ensures locals { self.new.locals ≡ self.old.locals }
    {
        match &mut self.open_handler {
            None => Ok(()),
            Some(handler) => handler.open(number, kind, line),
        }
    }

    // A line that divides the innermost open block, whose second branch is of this kind.
    pub(crate) fn divide_block(
        &mut self,
        alloc: Global,
        number: u32,
        kind: BlockKind,
        line: Line,
    ) -> Result<(), AllocError>
        requires { table.lines_of_open self.old.open_handler < LINES }
        ensures taken { OnOk result (self.new ≡ after.with_open self.old (after.dividing kind number line)) }
        ensures locals { self.new.locals ≡ self.old.locals }
    {
        match &mut self.open_handler {
            None => Ok(()),
            Some(handler) => handler.divide(alloc, number, kind, line),
        }
    }

    // A line that closes the innermost open block, which leads to this line, or so many lines further on.
    pub(crate) fn close_block(
        &mut self,
        alloc: Global,
        number: u32,
        further: u16,
        line: Line,
    ) -> Result<(), AllocError>
        requires room { table.lines_of_open self.old.open_handler < LINES }
        requires near { further < 2 }
        ensures taken { OnOk result (self.new ≡ after.with_open self.old (after.closing further number line)) }
        ensures locals { self.new.locals ≡ self.old.locals }
    {
        match &mut self.open_handler {
            None => Ok(()),
            Some(handler) => handler.close(alloc, number, further, line),
        }
    }
}
