//! What a section of a plan adds, over the section and at the points in it.

ghost use Rattle.std.specs.Prelude.{◌≡◌, ◌+◌, ◌-◌, ◌*◌, ◌≤◌, ◌<◌};
ghost use Rattle.plan_tables.specs.Sections.{IsSection};
ghost use Rattle.time_brackets.specs.Sums.{StandsPast, block_cells};
ghost use Rattle.time_brackets.specs.Times.{slowest_metre};
ghost use Rattle.unit_rules.specs.Limits.{longest_line};
ghost use Rattle.allowances.specs.Allowances.{amount_by, most_added};

use plan_tables::{AllowKind, Section};
use std::sync::ledger::Ledger;
use time_brackets::Sums;
use unit_rules::Steps;

/// A section of a plan, the times by which its allowance is spread, and what that comes to.
#[derive(Clone, Copy)]
pub(crate) struct Allowance {
    pub section: Section,
    /// The longest time from point 0 to the section, in nanoseconds.
    pub before: u64,
    /// The longest time over it, in nanoseconds.
    pub over: u64,
    /// What it adds in all, in milliseconds.
    pub amount: u64,
    ghost small: { amount ≤ most_added },
    ghost some: { 0 < over },
}

impl Allowance {
    ghost use Rattle.allowances.specs.Progress.{IsAllowanceOf, share_at};

    /// The allowance of a section for a train of squared speeds `e`, of which the sums stand for those
    /// up to its end.
    pub(crate) fn of<L: Ledger>(
        section: Section,
        sums: &Sums,
        e: &[u32],
        steps: &mut Steps<L>,
    ) -> Allowance
        requires section { IsSection section }
        requires short { section.to ≤ longest_line }
        requires stands { StandsPast sums.now e.now section.to }
        ensures section { result.section ≡ section }
        ensures allowance { IsAllowanceOf e.now result }
        ensures cost { steps.new ≤ steps.old + 2 * block_cells }
        ensures cost_most { steps.new ≤ steps.old + 2 * section.to }
    {
        let before = sums.upto(section.from, e, steps).hi;
        let over = sums.upto(section.to, e, steps).hi - before;
        let amount = amount_over(section, over);
        Allowance {
            section,
            before,
            over,
            amount,
        }
    }

    /// What it adds at a point before its end, where the longest time to there is so long.
    pub(crate) fn share_at(self, point: u32, time: u64) -> u64
        requires time { self.section.from < point → self.before ≤ time }
        requires within { self.section.from < point → time ≤ self.before + self.over }
        ensures share { result ≡ share_at self point time }
        ensures small { result ≤ most_added }
    {
        if point <= self.section.from {
            return 0;
        }
        let product = u128::from(self.amount) * u128::from(time - self.before);
        (product / u128::from(self.over)) as u64
    }
}

// What a section adds in all, where the longest time over it is so long.
fn amount_over(section: Section, time: u64) -> u64
    requires section { IsSection section }
    requires short { section.to ≤ longest_line }
    requires time { time ≤ longest_line * slowest_metre }
    ensures amount { result ≡ amount_by section.kind section.amount (section.to - section.from)
        time }
    ensures small { result ≤ most_added }
{
    let amount = u64::from(section.amount);
    match section.kind {
        AllowKind::Percent => {
            let product = u128::from(time) * u128::from(amount);
            product.div_ceil(1_000_000_000) as u64
        }
        AllowKind::Per100km => (u64::from(section.to - section.from) * amount).div_ceil(100),
        AllowKind::Fixed => amount * 1000,
    }
}
