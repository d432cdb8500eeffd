//! The rows of a timetable, in one way along the line.

ghost use Rattle.std.specs.Prelude.{◌≡◌, ◌+◌, ◌*◌, ◌^◌, ◌≤◌, ◌<◌, [], ◌∷◌, ◌++◌, All, IfOk, OnOk};
ghost use Rattle.plan_tables.specs.Limits.{longest_dwell, most_sections};
ghost use Rattle.time_brackets.specs.Sums.{block_cells, longest_at, sum_over};
ghost use Rattle.allowances.specs.Allowances.{added_at, most_added};
ghost use Rattle.allowances.specs.Arrivals.{dwell_of};
ghost use Rattle.allowances.specs.Progress.{IsLaid, IsProgressAt};
ghost use Rattle.allowances.specs.Rows.{IsTimed, row_at, row_count, row_kind, rows_of};

use crate::allowance::Allowance;
use crate::arrival::later;
use crate::progress::Progress;
use crate::{Row, RowKind};
use plan_tables::{CallKind, Plan};
use std::alloc::Global;
use std::sync::ledger::Ledger;
use time_brackets::{Bracket, Sums};
use unit_rules::{Memory, Steps};

const MILLISECOND: u64 = 1_000_000;

/// A train's run over a line of `length` metres by a plan, with the plan's allowances.
#[derive(Clone, Copy)]
pub(crate) struct Run<'a> {
    pub plan: &'a Plan,
    pub length: u32,
    pub sums: &'a Sums,
    pub e: &'a [u32],
    pub allowances: &'a [Allowance],
}

impl Run<'_> {
    /// The rows of the plan's timetable.
    pub(crate) fn rows<L: Ledger>(
        &self,
        alloc: Global,
        steps: &mut Steps<L>,
    ) -> Result<Vec<Row>, Memory>
        requires { IsLaid self.now }
        ensures rows { IfOk result (λ rows.
            rows.items ≡ rows_of self.now.plan.now self.now.length self.now.e.now) }
        ensures timed { IfOk result (λ rows. All IsTimed rows.items) }
        ensures cost { steps.new ≤ steps.old + block_cells * row_count self.now.plan.now }
        ensures cost_most { steps.new ≤ steps.old + self.now.length * row_count self.now.plan.now }
    {
        let mut rows = Vec::new(alloc);
        let mut progress = Progress::start(self.plan.depart()).to(self.allowances, 0);
        let start = self.row_at(progress, 0, RowKind::Start, 0, None, steps);
        put(&mut rows, start)?;
        let calls = self.plan.calls();
        for index in 0..calls.len() {
            let call = &calls[index];
            progress = progress.to(self.allowances, call.at);
            let (kind, dwell) = standing(call.kind);
            let row = self.row_at(progress, call.at, kind, dwell, Some(index as u32), steps);
            put(&mut rows, row)?;
            progress = progress.behind(call.at, dwell, self.length);
        }
        progress = progress.to(self.allowances, self.length);
        let end = self.row_at(progress, self.length, RowKind::End, 0, None, steps);
        put(&mut rows, end)?;
        Ok(rows)
    }

    // The row at the point of a progress, where the train stands for so many seconds.
    fn row_at<L: Ledger>(
        &self,
        progress: Progress,
        at: u32,
        kind: RowKind,
        dwell: u32,
        call: Option<u32>,
        steps: &mut Steps<L>,
    ) -> Row
        requires laid { IsLaid self.now }
        requires progress { IsProgressAt self.now.plan.now self.now.allowances.now at progress }
        requires on_line { at ≤ self.now.length }
        requires dwell { dwell ≤ longest_dwell }
        ensures row { result ≡ row_at self.now.plan.now self.now.e.now at kind dwell call }
        ensures timed { IsTimed result }
        ensures cost { steps.new ≤ steps.old + block_cells }
        ensures cost_most { steps.new ≤ steps.old + self.now.length }
    {
        let time = self.sums.upto(at, self.e, steps);
        let arrive = later(time, progress.seconds);
        let added = self.added_at(progress, at, time.hi);
        Row {
            at,
            kind,
            arrive,
            leave: later(arrive, u64::from(dwell)),
            added,
            planned: arrive.hi.div_ceil(MILLISECOND) + added,
            call,
        }
    }

    // What the plan's sections add at the point of a progress, where the longest time to there is so
    // long.
    fn added_at(&self, progress: Progress, at: u32, time: u64) -> u64
        requires laid { IsLaid self.now }
        requires progress { IsProgressAt self.now.plan.now self.now.allowances.now at progress }
        requires on_line { at ≤ self.now.length }
        requires time { time ≡ sum_over (longest_at self.now.e.now) 0 at }
        ensures added { result ≡ added_at self.now.plan.now self.now.e.now at }
        ensures small { result ≤ most_sections * most_added }
    {
        match self.allowances.get(progress.ended) {
            Some(next) => progress.added + next.share_at(at, time),
            None => progress.added,
        }
    }
}

// Puts a row behind the others.
fn put(rows: &mut Vec<Row>, row: Row) -> Result<(), Memory>
    ensures { OnOk result (rows.new.items ≡ rows.old.items ++ row ∷ []) }
{
    match rows.push(row) {
        Ok(()) => Ok(()),
        Err(_) => Err(Memory),
    }
}

// What the row of a call is, and how many seconds the train stands there.
fn standing(kind: CallKind) -> (RowKind, u32)
    ensures kind { result.0 ≡ row_kind kind }
    ensures dwell { result.1 ≡ dwell_of kind }
{
    match kind {
        CallKind::Stop { dwell } => (RowKind::Stop, dwell),
        CallKind::Pass => (RowKind::Pass, 0),
    }
}
