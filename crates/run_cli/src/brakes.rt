//! The form `brakes`: the braking list of a train on a line.

ghost use Rattle.std.specs.Prelude.{◌≡◌, ◌≤◌, ◌+◌, ◌*◌, [], Some, IfOk, OnOk, OnErr};
ghost use Rattle.case_rules.specs.Case.{train_rule};
ghost use Rattle.incr_envelope.specs.Envelope.{caps_under};
ghost use Rattle.plan_tables.specs.Plan.{empty_plan};
ghost use Rattle.run_files.specs.Files.{AreTables};
ghost use Rattle.run_files.specs.Loads.{Loads};
ghost use Rattle.run_cli.specs.Brakes.{brakes_allows, brakes_means};
ghost use Rattle.run_cli.specs.FileLaws.{alone};
ghost use Rattle.run_cli.specs.Forms.{meaning_of};
ghost use Rattle.run_rules.specs.Runs.{IsBrakingList};
ghost use Rattle.run_words.specs.Requests.{brakes_view};

use crate::form::Form;
use crate::report::ListReport;
use incr_envelope::braking_list;
use line_tables::Line;
use plan_tables::Plan;
use restrictions::InForce;
use run_files::{Status, load_both};
use run_io::Shelf;
use run_words::BrakesForm;
use std::alloc::Global;
use std::sync::ledger::Ledger;
use stock_tables::Stock;
use unit_rules::{Memory, Steps};

impl<'a> Form for BrakesForm<'a> {
    type Tables = (Line, Stock);

    type Report = ListReport;

    ghost request = { brakes_view };

    ghost are = { λ f. AreTables f.line.now f.stock.now };

    ghost right = { λ f both r.
        IsBrakingList (train_rule both.0 both.1) (caps_under both.0 both.1 empty_plan []) r.numbers.items };

    ghost cost = { λ f both. 33 * (both.0.length + 1) };

    fn load<S: Shelf>(&self, alloc: Global, shelf: &mut S) -> Result<(Line, Stock), Status> {
        load_both(alloc, shelf, self.line, self.stock)
    }

    fn make<L: Ledger>(
        &self,
        alloc: Global,
        both: (Line, Stock),
        steps: &mut Steps<L>,
    ) -> Result<ListReport, Memory> {
        let (line, stock) = both;
        let numbers = braking_list(
            alloc,
            &line,
            stock,
            &Plan::new(alloc),
            &InForce::new(alloc),
            steps,
        )?;
        Ok(ListReport { numbers })
    }

    ghost files_alone = { λ f. alone _ _ _ _ };

    ghost means = { brakes_means };

    ghost allows = { brakes_allows };
}
