//! Sums of the times of a line's cells, kept for each whole block of them.

ghost use Rattle.std.specs.Prelude.{◌≡◌, ◌+◌, ◌-◌, ◌*◌, ◌<◌, ◌≤◌, ◌⊎◌, IfOk, List, ℕ};
ghost use Rattle.unit_rules.specs.Limits.{longest_line};
ghost use Rattle.time_brackets.specs.Times.{AreTimes, longest_time, shortest_time, slowest_metre};
ghost use Rattle.time_brackets.specs.Sums.{HasSums, IsMoving, StandsFor, StandsForOlder, StandsPast, block_cells, longest_at, shortest_at, sum_over};

use crate::Bracket;
use crate::speeds::Speeds;
use std::alloc::Global;
use std::marker::Model;
use std::sync::ledger::Ledger;
use unit_rules::{Memory, Steps};

// How many cells are a block.
const BLOCK: u32 = 512;

/// Sums of the times over a line's cells, for a list of squared speeds by point, in (0.01 km/h)², of
/// which the first numbers are known.
#[derive(Drop)]
pub struct Sums {
    cells: u32,
    blocks: Vec<Bracket>,
}

impl Model for Sums {
    ghost use Rattle.time_brackets.specs.Sums.{IsKept, KeptSums};

    ghost Value = { KeptSums };

    ghost view = { λ s. record { cells = s.cells; blocks = s.blocks.items } };

    ghost invariant = { λ s. IsKept (record { cells = s.cells; blocks = s.blocks.items }) };
}

impl Sums {
    /// The sums for a line of so many cells, where no number is known.
    pub fn new(alloc: Global, cells: u32) -> Result<Sums, Memory>
        requires { cells ≤ longest_line }
        ensures cells { IfOk result (λ sums. sums.cells ≡ cells) }
        ensures stands { IfOk result (λ sums. (e : List ℕ) → StandsFor sums e 0) }
    {
        let Ok(blocks) = vec![in alloc; Bracket::none(); (cells / BLOCK) as usize] else {
            return Err(Memory);
        };
        Ok(Sums { cells, blocks })
    }

    /// Makes the sums stand for the first `known` numbers of `e`, where they stood for a list that
    /// agrees with these outside points `from..=to`, a missing number counting as a value.
    pub fn redo<L: Ledger>(
        &mut self,
        from: u32,
        to: u32,
        e: &[u32],
        known: u32,
        steps: &mut Steps<L>,
    )
        requires ordered { from ≤ to }
        requires on_line { to ≤ self.old.cells }
        requires points { known ≤ self.old.cells + 1 }
        requires moving { IsMoving e.now known }
        requires older { StandsForOlder self.old e.now known from to }
        ensures stands { StandsFor self.new e.now known }
        ensures cells { self.new.cells ≡ self.old.cells }
        ensures cost { steps.new + from ≤ steps.old + to + 2 + 2 * block_cells }
        ensures cost_most { steps.new ≤ steps.old + self.old.cells }
    {
        let (first, end) = blocks_met(from, to, known);
        for block in first..end {
            let start = block * BLOCK;
            self.blocks[block as usize] = times_over(e, start, start + BLOCK, steps);
        }
    }

    /// The time from point 0 to point `i` of `e`: the sums of both ends of the brackets of the cells
    /// below `i`.
    pub fn upto<L: Ledger>(&self, i: u32, e: &[u32], steps: &mut Steps<L>) -> Bracket
        requires { StandsPast self.now e.now i }
        ensures lo { result.lo ≡ sum_over (shortest_at e.now) 0 i }
        ensures hi { result.hi ≡ sum_over (longest_at e.now) 0 i }
        ensures ordered { result.lo ≤ result.hi }
        ensures short { result.hi ≤ i * slowest_metre }
        ensures cost { steps.new ≤ steps.old + block_cells }
        ensures cost_most { steps.new ≤ steps.old + i }
    {
        let whole = i / BLOCK;
        let mut sum = Bracket::none();
        for block in 0..whole {
            sum = sum.plus(self.blocks[block as usize]);
        }
        sum.plus(times_over(e, whole * BLOCK, i, steps))
    }
}

// The first of the blocks whose points are all among the first `known` and of which one is in
// `from..=to`, and the one past the last.
fn blocks_met(from: u32, to: u32, known: u32) -> (u32, u32)
    requires ordered { from ≤ to }
    ensures ordered { result.0 ≤ result.1 }
    ensures known { result.0 < result.1 → block_cells * result.1 < known }
    ensures all { (b : ℕ) → block_cells * (b + 1) < known → (b < result.0) ⊎ (result.1 ≤ b)
        → (block_cells * (b + 1) < from) ⊎ (to < block_cells * b) }
    ensures few { block_cells * result.1 + from ≤ block_cells * (result.0 + 2) + to + 2 }
    ensures most { block_cells * result.1 ≤ block_cells * result.0 + (known - 1) }
{
    let first = from.saturating_sub(1) / BLOCK;
    let last = to / BLOCK;
    let whole = known.saturating_sub(1) / BLOCK;
    if whole <= first {
        return (first, first);
    }
    if last < whole {
        return (first, last + 1);
    }
    (first, whole)
}

// The time over the cells of `e` from one on and up to another.
fn times_over<L: Ledger>(e: &[u32], from: u32, to: u32, steps: &mut Steps<L>) -> Bracket
    requires ordered { from ≤ to }
    requires short { to ≤ longest_line }
    requires moving { IsMoving e.now (to + 1) }
    ensures sums { HasSums e.now from (to - from) result }
    ensures cost { steps.new + from ≡ steps.old + to }
{
    let mut sum = Bracket::none();
    let mut here = Speeds::of(e[from as usize]);
    let mut last = Cell::stand();
    for i in from..to {
        let next = here.at_next(e[i as usize + 1]);
        last = last.followed_by(here, next, steps);
        sum = sum.plus(last.times);
        here = next;
    }
    sum
}

// The squared speeds at both ends of a cell, and the time over it if the train moves there.
#[derive(Clone, Copy)]
struct Cell {
    enters: u32,
    leaves: u32,
    times: Bracket,
    ghost right: { AreTimes enters leaves times.lo times.hi },
}

impl Cell {
    // The cell of a train that stands, which no cell of a moving train is like.
    fn stand() -> Cell {
        Cell {
            enters: 0,
            leaves: 0,
            times: Bracket::none(),
        }
    }

    // The cell after this one, whose times are these where the train enters and leaves it alike.
    fn followed_by<L: Ledger>(self, here: Speeds, next: Speeds, steps: &mut Steps<L>) -> Cell
        requires { 1 ≤ here.squared + next.squared }
        ensures lo { result.times.lo ≡ shortest_time here.squared next.squared }
        ensures hi { result.times.hi ≡ longest_time here.squared next.squared }
        ensures cost { steps.new ≡ steps.old + 1 }
    {
        if self.enters == here.squared && self.leaves == next.squared {
            steps.tick();
            return self;
        }
        let times = here.times_to(next, steps);
        Cell {
            enters: here.squared,
            leaves: next.squared,
            times,
        }
    }
}
