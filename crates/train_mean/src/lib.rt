//! The gradient under a train: its mean over the train's length, and the pull that it makes.
#![tactic(auto)]

ghost use Rattle.std.specs.Prelude.{◌≡◌, ◌*◌, ◌-◌, ◌≤◌, ◌<◌, ℕ, pos, neg_ℤ, ◌≤ℤ◌, ◌+ℤ◌, ◌-ℤ◌, All, IfOk};
ghost use Rattle.unit_rules.specs.Limits.{longest_train};
ghost use Rattle.run_rules.specs.StepRules.{IsPull};
ghost use Rattle.train_mean.specs.Gradients.{gradient_at, pull_of, pulls_of};
ghost use Rattle.train_mean.specs.Windows.{AreSlopes, IsAhead, Passes, TellsFrom, gradient_left};

use line_tables::{Line, Slope};
use std::alloc::Global;
use unit_rules::{Divisor, Memory};

/// The pull at each cell of a line on a train of `mass` kg and `train` metres whose head is there, in
/// the units of push: `ceil(mass·S·158922/(625·train))`, with `S` the sum of the gradients of the
/// cells under the train in tenths of a per mille. It is the weight's part along the mean gradient,
/// with g = 9.81 m/s².
pub fn pulls(alloc: Global, line: &Line, mass: u32, train: u32) -> Result<Vec<i64>, Memory>
    requires mass { mass ≤ 20000000 }
    requires train_least { 1 ≤ train }
    requires train_most { train ≤ longest_train }
    ensures pulls { IfOk result
        (λ pulls. pulls.items ≡ pulls_of line.now.slopes line.now.length mass train) }
    ensures small { IfOk result (λ pulls. All IsPull pulls.items) }
{
    let length = line.length();
    let start = TrainEnd {
        slopes: line.slopes(),
        tenths: 0,
        to: 0,
    };
    let (mut head, mut tail, mut sum) = (start, start, 0);
    let divisor = Divisor::new(625 * train as u64);
    let mut under = Under {
        sum: 0,
        pull: pull(mass, train, &divisor, 0),
    };
    let Ok(mut pulls) = Vec::with_capacity(alloc, length as usize) else {
        return Err(Memory);
    };
    for cell in 0..length {
        head = move_head(head, cell);
        tail = move_tail(tail, train, cell);
        sum = moved_sum(sum, head.tenths, tail.tenths);
        under = pulled(mass, train, &divisor, under, sum);
        let Ok(()) = pulls.push(under.pull) else {
            return Err(Memory);
        };
    }
    Ok(pulls)
}

// One end of a train on its way: the slopes that are still ahead of it, the gradient of the cell that
// it passes, in tenths of a per mille, and the cell up to which it passes that gradient.
#[derive(Clone, Copy)]
struct TrainEnd<'a> {
    slopes: &'a [Slope],
    tenths: i32,
    to: u32,
}

// The head of a train as it enters a cell; the slopes are looked at only where the gradient may change.
fn move_head<'a>(head: TrainEnd<'a>, cell: u32) -> TrainEnd<'a>
    requires small { cell < 4294967295 }
    requires slopes { AreSlopes head.slopes.now }
    requires passes { Passes (gradient_at head.slopes.now) cell head.to head.tenths }
    ensures slopes { AreSlopes result.slopes.now }
    ensures tells { TellsFrom cell head.entry.slopes.now result.slopes.now }
    ensures passes { Passes (gradient_at result.slopes.now) cell result.to result.tenths }
    ensures ahead { cell < result.to }
{
    if cell < head.to {
        return head;
    }
    let slopes = skip_passed(head.slopes, cell);
    let (tenths, to) = gradient_in(slopes, cell);
    TrainEnd { slopes, tenths, to }
}

// The tail of a train as its head enters a cell: it passes the gradient of the cell that it leaves, and
// 0 where it leaves none.
fn move_tail<'a>(tail: TrainEnd<'a>, train: u32, cell: u32) -> TrainEnd<'a>
    requires small { cell < 4294967295 }
    requires slopes { AreSlopes tail.slopes.now }
    requires passes { Passes (gradient_left tail.slopes.now train) cell tail.to tail.tenths }
    ensures slopes { AreSlopes result.slopes.now }
    ensures tells { TellsFrom (cell - train) tail.entry.slopes.now result.slopes.now }
    ensures passes { Passes (gradient_left result.slopes.now train) cell result.to result.tenths }
    ensures ahead { cell < result.to }
{
    if cell < tail.to {
        return tail;
    }
    if cell < train {
        return TrainEnd {
            slopes: tail.slopes,
            tenths: 0,
            to: train,
        };
    }
    let slopes = skip_passed(tail.slopes, cell - train);
    let (tenths, to) = gradient_in(slopes, cell - train);
    TrainEnd {
        slopes,
        tenths,
        to: to.saturating_add(train),
    }
}

// The sum of the gradients under a train, in tenths of a per mille, and its pull.
#[derive(Clone, Copy)]
struct Under {
    sum: i64,
    pull: i64,
}

// A sum with its pull, which is known where the sum is as before, as in most cells.
fn pulled(mass: u32, train: u32, divisor: &Divisor, before: Under, sum: i64) -> Under
    requires mass { mass ≤ 20000000 }
    requires train_least { 1 ≤ train }
    requires train_most { train ≤ longest_train }
    requires divisor { divisor.now ≡ 625 * train }
    requires before { before.pull ≡ pull_of mass train before.sum }
    requires least { neg_ℤ (pos (1000 * train)) ≤ℤ sum }
    requires most { sum ≤ℤ pos (1000 * train) }
    ensures sum { result.sum ≡ sum }
    ensures pull { result.pull ≡ pull_of mass train sum }
    ensures small { IsPull result.pull }
{
    if sum == before.sum {
        return before;
    }
    Under {
        sum,
        pull: pull(mass, train, divisor, sum),
    }
}

// The slopes without those that end at a cell or before it.
fn skip_passed(slopes: &[Slope], cell: u32) -> &[Slope]
    requires { AreSlopes slopes.now }
    ensures tells { TellsFrom cell slopes.now result.now }
    ensures slopes { AreSlopes result.now }
    ensures ahead { IsAhead cell result.now }
{
    let mut left = slopes;
    while let [first, rest @ ..] = left {
        if first.to > cell {
            break;
        }
        left = rest;
    }
    left
}

// The gradient at a cell, by the slopes that end after it, and the cell up to which it lasts.
fn gradient_in(slopes: &[Slope], cell: u32) -> (i32, u32)
    requires small { cell < 4294967295 }
    requires slopes { AreSlopes slopes.now }
    requires ahead { IsAhead cell slopes.now }
    ensures passes { Passes (gradient_at slopes.now) cell result.1 result.0 }
    ensures ahead { cell < result.1 }
{
    match slopes.first() {
        Some(first) => {
            if first.from <= cell {
                (first.tenths, first.to)
            } else {
                (0, first.from)
            }
        }
        None => (0, u32::MAX),
    }
}

// The sum of the gradients under a train, as its head enters a cell and its tail leaves one.
fn moved_sum(sum: i64, entered: i32, left: i32) -> i64
    requires least { neg_ℤ (pos 5000000) ≤ℤ sum }
    requires most { sum ≤ℤ pos 5000000 }
    requires entered_least { neg_ℤ (pos 1000) ≤ℤ entered }
    requires entered_most { entered ≤ℤ pos 1000 }
    requires left_least { neg_ℤ (pos 1000) ≤ℤ left }
    requires left_most { left ≤ℤ pos 1000 }
    ensures sum { result ≡ (sum +ℤ entered) -ℤ left }
    ensures least { neg_ℤ (pos 5002000) ≤ℤ result }
    ensures most { result ≤ℤ pos 5002000 }
{
    sum + entered as i64 - left as i64
}

// The pull of a sum of gradients under a train, by the divisor that its length makes.
fn pull(mass: u32, train: u32, divisor: &Divisor, sum: i64) -> i64
    requires mass { mass ≤ 20000000 }
    requires train_least { 1 ≤ train }
    requires train_most { train ≤ longest_train }
    requires divisor { divisor.now ≡ 625 * train }
    requires least { neg_ℤ (pos (1000 * train)) ≤ℤ sum }
    requires most { sum ≤ℤ pos (1000 * train) }
    ensures pull { result ≡ pull_of mass train sum }
    ensures small { IsPull result }
{
    let size = mass as u64 * sum.unsigned_abs() * 158_922;
    if sum < 0 {
        -(divisor.quotient(size) as i64)
    } else {
        divisor.quotient_up(size) as i64
    }
}

#[cfg(test)]
mod tests {
    use super::*;
    use line_tables::read_line;

    // Whether numbers from a place on begin with these.
    fn has_at(numbers: &[i64], place: usize, wanted: &[i64]) -> bool {
        match numbers.get(place..) {
            Some(rest) => rest.starts_with(wanted),
            None => false,
        }
    }

    // Whether the pulls on a train of 259,200 kg and 10 m, from a cell of a line on, begin with these.
    fn are_pulls(alloc: Global, text: &[u8], cell: usize, wanted: &[i64]) -> bool {
        match read_line(alloc, text) {
            Ok(line) => match pulls(alloc, &line, 259_200, 10) {
                Ok(found) => has_at(&found, cell, wanted),
                Err(_) => false,
            },
            Err(_) => false,
        }
    }

    #[test]
    fn hills(rt: HostRuntime) {
        let hill = b"line,Hill,1000\ngradient,50,1000,100\n";
        let entered = [
            0, 659081319, 1318162637, 1977243956, 2636325274, 3295406592, 3954487911, 4613569229,
            5272650548, 5931731866, 6590813184,
        ];
        assert!(rt; are_pulls(rt.alloc(), hill, 49, &entered));
        assert!(rt; are_pulls(rt.alloc(), hill, 999, &[6590813184]));
        let steep = b"line,Steep,200\ngradient,100,110,200\n";
        assert!(rt; are_pulls(rt.alloc(), steep, 109, &[13181626368]));
        assert!(rt; are_pulls(rt.alloc(), steep, 119, &[0]));
        let dale = b"line,Dale,200\ngradient,100,110,-200\ngradient,110,111,7\n";
        assert!(rt; are_pulls(rt.alloc(), dale, 109, &[-13181626368, -11817328038]));
    }
}
