//! The step rule of a train on a line: which squared speeds one metre can make of another.
//!
//! A rule gives its numbers by counted calls alone, so no caller evaluates it uncounted.
#![tactic(auto)]

ghost use Rattle.std.specs.Prelude.{◌≡◌, ℕ, ◌+◌, ◌^◌, ◌<◌, ◌≤◌, pos, neg_ℤ, ◌+ℤ◌, ◌-ℤ◌, ◌≤ℤ◌, All, vec_len};
ghost use Rattle.unit_rules.specs.Limits.{greatest_value};
ghost use Rattle.unit_rules.specs.Quotients.{floor_div};
ghost use Rattle.run_rules.specs.Grids.{row, top_of};
ghost use Rattle.run_rules.specs.Runs.{IsMonotone};
ghost use Rattle.run_rules.specs.StepRules.{IsPull, fall_from};
ghost use Rattle.step_rule.specs.Motion.{IsMotion, cells_of, kmh_of, most_of, step_rule_of};

mod hills;
mod search;
#[cfg(test)]
mod tests;

use hills::gentle_pull;
use std::marker::Model;
use std::sync::ledger::Ledger;
use table_laws::{Bands, Law, Near};
use unit_rules::{Divisor, Steps};

// What brakes take past this tells no more hills that are gentle: times any mass it fits an `i64`.
const GREATEST_RATE: i64 = 1_000_000;

/// The step rule of a train on a line.
#[derive(Drop)]
pub struct Rule {
    push: Bands,
    brake: Bands,
    moved: Divisor,
    pulls: Vec<i64>,
    // a pull that is held, and one that is gentle
    held: i64,
    gentle: i64,
}

impl Model for Rule {
    ghost use Rattle.step_rule.specs.Hills.{KnowsHills};
    ghost use Rattle.step_rule.specs.Motion.{Motion};

    ghost Value = { Motion };

    ghost view = { λ r. record {
      push = r.push;
      brake = r.brake;
      moved = r.moved;
      pulls = r.pulls.items;
    } };

    ghost invariant = { λ r. KnowsHills (record {
      push = r.push;
      brake = r.brake;
      moved = r.moved;
      pulls = r.pulls.items;
    }) r.held r.gentle };
}

impl Rule {
    /// The rule of a train with the push `push` and the brakes `brake`, in the units of squared
    /// speed, and the moved mass `moved` in kg, on a line with the pull `pulls[i]` at cell `i`.
    pub fn new(push: Bands, brake: Bands, moved: u32, pulls: Vec<i64>) -> Rule
        requires tops { top_of brake.rows ≡ top_of push.rows }
        requires push_law { push.law ≡ Law.Drop moved }
        requires brake_law { brake.law ≡ Law.Climb }
        requires brakes { (k : ℕ) → k ≤ top_of brake.rows → pos 12960 ≤ℤ row brake.rows k }
        requires moved_least { 1 ≤ moved }
        requires cells_least { 2 ≤ vec_len pulls }
        requires cells_most { vec_len pulls ≤ 500000 }
        requires pulls_small { All IsPull pulls.items }
        ensures { result ≡ record {
          push = push;
          brake = brake;
          moved = moved;
          pulls = pulls.items;
        } }
    {
        let held = push.least();
        let rate = brake.least().max(0).min(GREATEST_RATE) as u32;
        Rule {
            push,
            brake,
            moved: Divisor::new(u64::from(moved)),
            pulls,
            held,
            gentle: gentle_pull(held, rate, moved),
        }
    }

    /// The number of cells. Neither bound of the rule falls as the speed rises, the least is at most
    /// the greatest, and a train that stands can stay standing.
    pub fn cells(&self) -> u32
        ensures cells { result ≡ cells_of self.now }
        ensures kept { IsMotion self.now }
        ensures monotone { IsMonotone (step_rule_of self.now)
            (cells_of self.now) (most_of self.now) }
    {
        self.pulls.len() as u32
    }

    /// The top speed in km/h.
    pub fn top(&self) -> u32
        ensures top { result ≡ kmh_of self.now }
        ensures kept { IsMotion self.now }
    {
        self.push.top()
    }

    /// The greatest squared speed after cell `cell` from squared speed `u` before it: at full effort.
    pub fn up<L: Ledger>(&self, cell: u32, u: u32, steps: &mut Steps<L>) -> i64
        requires cell { cell < cells_of self.now }
        requires in_range { u ≤ most_of self.now }
        ensures value { result ≡ (step_rule_of self.now).up cell u }
        ensures cost { steps.new ≡ steps.old + 1 }
        ensures kept { IsMotion self.now }
    {
        self.up_near(cell, u, &mut Near::new(), steps)
    }

    /// As [`Rule::up`], found sooner where `u` lies at `near`, as it then does.
    pub fn up_near<L: Ledger>(
        &self,
        cell: u32,
        u: u32,
        near: &mut Near,
        steps: &mut Steps<L>,
    ) -> i64
        requires cell { cell < cells_of self.now }
        requires in_range { u ≤ most_of self.now }
        ensures value { result ≡ (step_rule_of self.now).up cell u }
        ensures cost { steps.new ≡ steps.old + 1 }
        ensures kept { IsMotion self.now }
    {
        steps.tick();
        let push = self.push.at_near(u, near);
        pushed(u, push, self.pulls[cell as usize], &self.moved)
    }

    /// The least squared speed after cell `cell` from squared speed `u` before it: under full
    /// brakes, or at full effort where a hill slows the train more.
    pub fn low<L: Ledger>(&self, cell: u32, u: u32, steps: &mut Steps<L>) -> i64
        requires cell { cell < cells_of self.now }
        requires in_range { u ≤ most_of self.now }
        ensures value { result ≡ (step_rule_of self.now).low cell u }
        ensures cost { steps.new ≡ steps.old + 1 }
        ensures kept { IsMotion self.now }
    {
        self.low_near(cell, u, &mut Near::new(), steps)
    }

    /// As [`Rule::low`], found sooner where `u` lies at `near`, as it then does.
    #[tactic(auto, unfolding(run_rules::specs::StepRules::low_from))]
    pub fn low_near<L: Ledger>(
        &self,
        cell: u32,
        u: u32,
        near: &mut Near,
        steps: &mut Steps<L>,
    ) -> i64
        requires cell { cell < cells_of self.now }
        requires in_range { u ≤ most_of self.now }
        ensures value { result ≡ (step_rule_of self.now).low cell u }
        ensures cost { steps.new ≡ steps.old + 1 }
        ensures kept { IsMotion self.now }
    {
        if self.is_gentle(cell) {
            steps.tick();
            return self.fall_near(u, near);
        }
        let up = self.up_near(cell, u, near, steps);
        up.min(self.fall_near(u, near))
    }

    // Under full brakes.
    fn fall_near(&self, u: u32, near: &mut Near) -> i64
        requires in_range { u ≤ most_of self.now }
        ensures value { result ≡ fall_from self.now.brake.rows u }
        ensures kept { IsMotion self.now }
    {
        i64::from(u) - self.brake.at_near(u, near)
    }
}

// The squared speed `u` and what push less pull adds to it, by the moved mass.
fn pushed(u: u32, push: i64, pull: i64, moved: &Divisor) -> i64
    requires push_most { push ≤ℤ pos greatest_value }
    requires push_least { neg_ℤ (pos greatest_value) ≤ℤ push }
    requires pull { IsPull pull }
    ensures { result ≡ pos u +ℤ floor_div (push -ℤ pull) moved.now }
{
    i64::from(u) + moved.floor(push - pull)
}
