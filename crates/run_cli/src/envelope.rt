//! The form `envelope`: the fastest run of a train over a line, or the point at which it is
//! stalled.

ghost use Rattle.std.specs.Prelude.{◌≡◌, ◌≤◌, ◌+◌, ◌*◌, [], Some, IfOk, OnOk, OnErr};
ghost use Rattle.case_rules.specs.Case.{train_rule};
ghost use Rattle.incr_envelope.specs.Envelope.{caps_under};
ghost use Rattle.plan_tables.specs.Plan.{empty_plan};
ghost use Rattle.run_files.specs.Files.{AreTables};
ghost use Rattle.run_files.specs.Loads.{Loads};
ghost use Rattle.run_cli.specs.Envelope.{envelope_allows, envelope_means};
ghost use Rattle.run_cli.specs.FileLaws.{alone};
ghost use Rattle.run_cli.specs.Forms.{meaning_of};
ghost use Rattle.run_rules.specs.Runs.{ReachesAs};
ghost use Rattle.run_words.specs.Requests.{envelope_view};

use crate::form::Form;
use incr_envelope::{Drive, drive};
use line_tables::Line;
use plan_tables::Plan;
use restrictions::InForce;
use run_files::{Status, load_both};
use run_io::Shelf;
use run_words::EnvelopeForm;
use std::alloc::Global;
use std::sync::ledger::Ledger;
use stock_tables::Stock;
use unit_rules::{Memory, Steps};

impl<'a> Form for EnvelopeForm<'a> {
    type Tables = (Line, Stock);

    type Report = Drive;

    ghost request = { envelope_view };

    ghost are = { λ f. AreTables f.line.now f.stock.now };

    ghost right = { λ f both r.
        ReachesAs (train_rule both.0 both.1) (caps_under both.0 both.1 empty_plan []) r.speeds.items r.reach };

    ghost cost = { λ f both. 33 * (both.0.length + 1) + both.0.length };

    fn load<S: Shelf>(&self, alloc: Global, shelf: &mut S) -> Result<(Line, Stock), Status> {
        load_both(alloc, shelf, self.line, self.stock)
    }

    fn make<L: Ledger>(
        &self,
        alloc: Global,
        both: (Line, Stock),
        steps: &mut Steps<L>,
    ) -> Result<Drive, Memory> {
        let (line, stock) = both;
        drive(
            alloc,
            &line,
            stock,
            &Plan::new(alloc),
            &InForce::new(alloc),
            steps,
        )
    }

    ghost files_alone = { λ f. alone _ _ _ _ };

    ghost means = { envelope_means };

    ghost allows = { envelope_allows };
}
