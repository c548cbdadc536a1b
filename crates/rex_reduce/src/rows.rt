//! Summaries by place, of few places among many.

ghost use Rattle.std.specs.Prelude.{◌≡◌, ℕ, ◌+◌, ◌<◌, ◌≤◌, [], length, slice_index_or, option_copied, unwrap_or, Some, OnOk, IfOk};
ghost use Rattle.rex_reduce.specs.Summaries as spec;
ghost use Rattle.rex_reduce.specs.Tables.{at, Covers, AreAddedAt};
ghost use Rattle.rex_reduce.specs.Rows.{row_at, AreApart};

use crate::row::Row;
use rex_clocks::Clock;
use rex_event::LANES;
use std::alloc::{AllocError, Global};
use std::marker::Model;

/// Summaries by place. A place has a row from when it is first named, so that a high place costs no more than a number
/// for each one below it. What has no row is of no events.
#[derive(Drop)]
pub(crate) struct Rows {
    /// By place, which row is its own, from 1; 0 is none.
    numbers: Vec<u32>,
    /// In the order in which their places were named.
    rows: Vec<Row>,
}

impl Model for Rows {
    ghost use Rattle.std.specs.Prelude.{List, length};
    ghost use Rattle.rex_reduce.specs.declared.summary.Summary.{Summary};
    ghost use Rattle.rex_reduce.specs.Rows.{summaries, AreApart};

    ghost Value = { List Summary };

    ghost view = { λ r. summaries r.rows.items r.numbers.items };

    ghost invariant = { λ r. AreApart (length r.rows.items) r.numbers.items };
}

impl Rows {
    /// Of no places.
    pub fn new(alloc: Global) -> Rows
        ensures { result ≡ [] }
    {
        Rows {
            numbers: Vec::new(alloc),
            rows: Vec::new(alloc),
        }
    }

    /// What stands at a place, if it has a row.
    pub fn get(&self, place: u32) -> Option<&Row>
        ensures { unwrap_or (option_copied result) spec.nothing ≡ at self.now place }
    {
        match number_of(&self.numbers, place) {
            0 => None,
            number => Some(&self.rows[number as usize - 1]),
        }
    }

    /// Adds an event of a lane at a place.
    pub fn add(&mut self, place: u32, own: &Clock, lane: u8) -> Result<(), AllocError>
        requires { lane < LANES }
        ensures { OnOk result (AreAddedAt self.old (Some place) (spec.alone own.now lane) self.new) }
    {
        let index = index_of(&mut self.numbers, &mut self.rows, place)?;
        self.rows[index].add(own, lane);
        Ok(())
    }

    /// Adds an event of a lane whose summary covers what stands at a place.
    pub fn put(&mut self, place: u32, own: &Clock, lane: u8) -> Result<(), AllocError>
        requires lane { lane < LANES }
        requires covers { Covers (spec.alone own.now lane) self.old (Some place) }
        ensures { OnOk result (AreAddedAt self.old (Some place) (spec.alone own.now lane) self.new) }
    {
        let index = index_of(&mut self.numbers, &mut self.rows, place)?;
        self.rows[index].put(own, lane);
        Ok(())
    }
}

/// The number of a place's row; 0 is none.
fn number_of(numbers: &[u32], place: u32) -> u32
    ensures { result ≡ slice_index_or numbers.now place 0 }
{
    match numbers.get(place as usize) {
        Some(number) => *number,
        None => 0,
    }
}

/// The index of a place's row, which is made if it has none.
fn index_of(numbers: &mut Vec<u32>, rows: &mut Vec<Row>, place: u32) -> Result<usize, AllocError>
    requires { AreApart (length rows.old.items) numbers.old.items }
    ensures apart { AreApart (length rows.new.items) numbers.new.items }
    ensures number { IfOk result (λ index. slice_index_or numbers.new.items place 0 ≡ index + 1) }
    ensures same { OnOk result ((k : ℕ) → row_at rows.new.items numbers.new.items k ≡ row_at rows.old.items numbers.old.items k) }
{
    match number_of(numbers, place) {
        0 => add_row(numbers, rows, place),
        number => Ok(number as usize - 1),
    }
}

/// Makes the row of a place that has none.
#[inline(never)]
fn add_row(numbers: &mut Vec<u32>, rows: &mut Vec<Row>, place: u32) -> Result<usize, AllocError>
    requires apart { AreApart (length rows.old.items) numbers.old.items }
    requires none { slice_index_or numbers.old.items place 0 ≡ 0 }
    ensures apart { AreApart (length rows.new.items) numbers.new.items }
    ensures number { IfOk result (λ index. slice_index_or numbers.new.items place 0 ≡ index + 1) }
    ensures same { OnOk result ((k : ℕ) → row_at rows.new.items numbers.new.items k ≡ row_at rows.old.items numbers.old.items k) }
{
    let index = rows.len();
    // So many rows would take more memory than there is.
    let Ok(number) = u32::try_from(index + 1) else {
        return Err(AllocError);
    };
    stretch(numbers, place as usize + 1)?;
    rows.push(Row::new())?;
    numbers[place as usize] = number;
    Ok(index)
}

/// Makes numbers at least so many.
fn stretch(numbers: &mut Vec<u32>, places: usize) -> Result<(), AllocError>
    ensures same { (k : ℕ) → slice_index_or numbers.new.items k 0 ≡ slice_index_or numbers.old.items k 0 }
    ensures long { OnOk result (places ≤ length numbers.new.items) }
{
    if numbers.len() < places {
        numbers.resize(places, 0)?;
    }
    Ok(())
}
