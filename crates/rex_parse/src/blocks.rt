//! The open blocks of a handler's lines.

ghost use Rattle.std.specs.Prelude.{◌≡◌, ◌∷◌, [], OnOk, MatchOption, count_by};
ghost use Rattle.rex_parse.specs.Above.{first_kind};
ghost use Rattle.rex_parse.specs.Table.{is_loop, is_loop_kind};

use std::alloc::{AllocError, Global};
use std::marker::Model;

/// What an open block is: the first or the second branch of an `if`, the first or the second branch of a `try`, or a
/// loop.
#[derive(Clone, Copy, Debug, PartialEq, Eq)]
pub enum BlockKind {
    Then,
    Otherwise,
    Got,
    Missed,
    Loop,
}

/// An open block, and the number in its handler, from 0, of the line that began it. That line leads to where the block
/// ends, which isn't known yet.
#[derive(Clone, Copy, Debug, PartialEq, Eq)]
pub struct OpenBlock {
    pub kind: BlockKind,
    pub line: u16,
}

/// The open blocks. Contracts see them as a list, innermost first.
#[derive(Drop)]
pub struct Blocks {
    /// Outermost first.
    blocks: Vec<OpenBlock>,
}

impl Model for Blocks {
    ghost use Rattle.std.specs.Prelude.{List, reverse};
    ghost use Rattle.rex_parse.specs.declared.blocks.OpenBlock.{OpenBlock};

    ghost Value = { List OpenBlock };

    ghost view = { λ b. reverse b.blocks.items };
}

impl Blocks {
    /// No open blocks.
    pub fn new(alloc: Global) -> Blocks
        ensures { result ≡ [] }
    {
        Blocks {
            blocks: Vec::new(alloc),
        }
    }

    /// A block begins inside the others.
    pub fn begin(&mut self, block: OpenBlock) -> Result<(), AllocError>
        ensures { OnOk result (self.new ≡ block ∷ self.old) }
    {
        self.blocks.push(block)?;
        Ok(())
    }

    /// The innermost block ends.
    pub fn end(&mut self) -> Option<OpenBlock>
        ensures { MatchOption result ((self.old ≡ []) × (self.new ≡ [])) (λ b. self.old ≡ b ∷ self.new) }
    {
        self.blocks.pop()
    }

    /// What the innermost block is.
    pub fn innermost(&self) -> Option<BlockKind>
        ensures { result ≡ first_kind self.now }
    {
        match self.blocks.last() {
            None => None,
            Some(block) => Some(block.kind),
        }
    }

    /// How many of the blocks are loops.
    pub fn loops(&self) -> usize
        ensures { result ≡ count_by is_loop self.now }
    {
        self.blocks
            .iter()
            .rev()
            .filter(|block| block.kind.is_loop())
            .count()
    }
}

impl BlockKind {
    fn is_loop(self) -> bool
        ensures { result ≡ is_loop_kind self }
    {
        matches!(self, BlockKind::Loop)
    }
}
