//! The form `check`: whether a certificate is that of a train on a line by a plan, or the first rule
//! that it breaks.

ghost use Rattle.std.specs.Prelude.{◌≡◌, ◌≤◌, ◌+◌, ◌*◌, Some, IfOk, OnOk, OnErr};
ghost use Rattle.run_files.specs.Files.{IsClaim};
ghost use Rattle.run_files.specs.Loads.{AsksOnce, Loads};
ghost use Rattle.run_cli.specs.Check.{IsChecked, check_allows, check_means, check_steps, found_status, found_text};
ghost use Rattle.run_cli.specs.FileLaws.{alone};
ghost use Rattle.run_cli.specs.Forms.{meaning_of};
ghost use Rattle.run_words.specs.Requests.{case_view, check_view};

use crate::form::Form;
use crate::report::CheckReport;
use case_rules::course_on;
use cert_check::check;
use run_files::{Case, Claim, Status, load_claim};
use run_io::Shelf;
use run_words::CheckForm;
use std::alloc::Global;
use std::sync::ledger::Ledger;
use unit_rules::{Memory, Steps};

impl<'a> Form for CheckForm<'a> {
    type Tables = Claim;

    type Report = CheckReport;

    ghost request = { check_view };

    ghost are = { λ f. IsClaim (case_view f.case) f.cert.now };

    ghost right = { λ f c r. IsChecked c.case.line c.case.stock c.case.plan c.case.force.pairs
        c.cert (found_status r.found) (found_text r.found) };

    ghost cost = { λ f c. check_steps c.case.line.length };

    fn load<S: Shelf>(&self, alloc: Global, shelf: &mut S) -> Result<Claim, Status> {
        load_claim(alloc, shelf, self)
    }

    fn make<L: Ledger>(
        &self,
        alloc: Global,
        claim: Claim,
        steps: &mut Steps<L>,
    ) -> Result<CheckReport, Memory> {
        let Claim { case, cert } = claim;
        let Case {
            line,
            stock,
            plan,
            force,
        } = case;
        let zones = force.zones()?;
        let (limits, rule) = course_on(alloc, &line, stock, &plan, &zones)?;
        let found = check(&rule, &limits, &cert, steps);
        Ok(CheckReport { found })
    }

    ghost files_alone = { λ f. alone _ _ _ _ };

    ghost means = { check_means };

    ghost allows = { check_allows };
}
