//! The form `rise`: what the step rule makes of a speed at each cell of a line.

ghost use Rattle.std.specs.Prelude.{◌≡◌, ◌≤◌, ◌<◌, ◌+◌, ◌*◌, ◌++◌, ◌∷◌, [], min, Some, OnOk, OnErr, IfOk};
ghost use Rattle.unit_rules.specs.Limits.{greatest_speed};
ghost use Rattle.run_files.specs.Files.{AreTables};
ghost use Rattle.run_files.specs.Loads.{Loads};
ghost use Rattle.run_files.specs.declared.status.Status.TheVariants.{Done};
ghost use Rattle.run_cli.specs.FileLaws.{alone};
ghost use Rattle.run_cli.specs.Forms.{meaning_of};
ghost use Rattle.run_cli.specs.Rise.{rise_allows, rise_line, rise_means, rise_text, shown_rise};
ghost use Rattle.run_rules.specs.Speeds.{squared};
ghost use Rattle.run_words.specs.Requests.{rise_view};
ghost use Rattle.step_rule.specs.Motion.{cells_of, most_of, step_rule_of};

use crate::form::{Form, Report};
use crate::rise_report::RiseReport;
use case_rules::{pulls_on, rule_by};
use line_tables::Line;
use run_files::{Status, load_both};
use run_io::{Block, Failed, Rows, Shelf, Sink, write_rows};
use run_rules::squared;
use run_words::RiseForm;
use std::alloc::Global;
use std::sync::ledger::Ledger;
use stock_tables::Stock;
use unit_rules::{Memory, Steps};

impl Report for RiseReport {
    ghost text = { shown_rise };

    ghost ending = { λ r. Done };

    ghost work = { λ r. 2 * cells_of r.rule };

    fn write<K: Sink, L: Ledger>(&self, out: &mut K, steps: &mut Steps<L>) -> Result<(), Failed> {
        write_rows(out, self, self.cells as usize, steps)
    }

    fn status(&self) -> Status {
        Status::Done
    }
}

impl<L: Ledger> Rows<Steps<L>> for RiseReport {
    ghost count = { λ r. r.cells };

    ghost text = { λ r. rise_line (step_rule_of r.rule) r.pulls.items r.before };

    ghost counted = { λ steps. steps };

    ghost cost = { 2 };

    fn put(&self, place: usize, block: &mut Block, steps: &mut Steps<L>) {
        let cell = place as u32;
        block.put_line(&[
            cell as i64,
            self.pulls[place],
            self.rule.up(cell, self.before, steps),
            self.rule.low(cell, self.before, steps),
        ]);
    }
}

impl<'a> Form for RiseForm<'a> {
    type Tables = (Line, Stock);

    type Report = RiseReport;

    ghost request = { rise_view };

    ghost are = { λ f. AreTables f.line.now f.stock.now };

    ghost right = { λ f both r. shown_rise r ≡ rise_text both.0 both.1 f.kmh };

    ghost cost = { λ f both. 2 * both.0.length };

    fn load<S: Shelf>(&self, alloc: Global, shelf: &mut S) -> Result<(Line, Stock), Status> {
        load_both(alloc, shelf, self.line, self.stock)
    }

    fn make<L: Ledger>(
        &self,
        alloc: Global,
        both: (Line, Stock),
        _steps: &mut Steps<L>,
    ) -> Result<RiseReport, Memory> {
        let (line, stock) = both;
        rise_from(alloc, &line, stock, self.kmh)
    }

    ghost files_alone = { λ f. alone _ _ _ _ };

    ghost means = { rise_means };

    ghost allows = { rise_allows };
}

// What the form shows of a stock on a line, from so many km/h, or from its top speed where that is
// less.
fn rise_from(alloc: Global, line: &Line, stock: Stock, kmh: u32) -> Result<RiseReport, Memory>
    requires { kmh ≤ greatest_speed }
    ensures shown { IfOk result (λ r. shown_rise r ≡ rise_text line.now stock kmh) }
    ensures cells { IfOk result (λ r. cells_of r.rule ≡ line.now.length) }
{
    let before = squared(stock.top()).min(squared(kmh));
    let pulls = pulls_on(alloc, line, &stock)?;
    // The rule keeps its pulls to itself, so what is shown is a copy of them.
    let Ok(shown) = Vec::from_slice(alloc, pulls.as_slice()) else {
        return Err(Memory);
    };
    let rule = rule_by(line, stock, pulls);
    Ok(RiseReport {
        cells: rule.cells(),
        rule,
        pulls: shown,
        before,
    })
}
