//! The form `plan`: the fastest run of a train over a line by a plan, its timetable or its certificate;
//! or the point at which it is stalled.

ghost use Rattle.std.specs.Prelude.{◌≡◌, ◌≤◌, ◌+◌, ◌*◌, Some, IfOk, OnOk, OnErr};
ghost use Rattle.allowances.specs.Rows.{row_count, section_count};
ghost use Rattle.run_files.specs.Files.{IsCase};
ghost use Rattle.run_files.specs.Loads.{AsksOnce, Loads};
ghost use Rattle.run_cli.specs.FileLaws.{alone};
ghost use Rattle.run_cli.specs.Forms.{meaning_of};
ghost use Rattle.run_cli.specs.Plan.{IsTimed, case_steps, found_status, found_text, plan_allows, plan_answer, plan_means};
ghost use Rattle.time_brackets.specs.Sums.{block_cells};
ghost use Rattle.run_words.specs.Requests.{case_view, plan_view};

use crate::cert_report::CertReport;
use crate::form::Form;
use crate::report::PlanReport;
use crate::timetable_report::TimetableReport;
use allowances::planned;
use incr_envelope::{Envelope, drive};
use run_files::{Case, Status, load_case};
use run_io::Shelf;
use run_words::{PlanForm, Print};
use std::alloc::Global;
use std::sync::ledger::Ledger;
use unit_rules::{Memory, Reach, Steps};

impl<'a> Form for PlanForm<'a> {
    type Tables = Case;

    type Report = PlanReport;

    ghost request = { plan_view };

    ghost are = { λ f. IsCase (case_view f.case) };

    ghost right = { λ f c r.
        plan_answer f.print c.line c.stock c.plan c.force.pairs (found_status r) (found_text r) };

    ghost cost = { λ f. case_steps f.print };

    fn load<S: Shelf>(&self, alloc: Global, shelf: &mut S) -> Result<Case, Status> {
        load_case(alloc, shelf, &self.case)
    }

    fn make<L: Ledger>(
        &self,
        alloc: Global,
        case: Case,
        steps: &mut Steps<L>,
    ) -> Result<PlanReport, Memory> {
        let Case {
            line,
            stock,
            plan,
            force,
        } = case;
        match self.print {
            Print::Envelope => {
                let drive = drive(alloc, &line, stock, &plan, &force, steps)?;
                Ok(PlanReport::Speeds(drive))
            }
            Print::Timetable => {
                let envelope = Envelope::under(alloc, line, stock, plan, force, steps)?;
                timed(alloc, envelope, steps)
            }
            Print::Cert => {
                let drive = drive(alloc, &line, stock, &plan, &force, steps)?;
                Ok(PlanReport::Cert(CertReport::of(drive)))
            }
        }
    }

    ghost files_alone = { λ f. alone _ _ _ _ };

    ghost means = { plan_means };

    ghost allows = { plan_allows };
}

// The timetable of an envelope, or its stall.
fn timed<L: Ledger>(
    alloc: Global,
    envelope: Envelope,
    steps: &mut Steps<L>,
) -> Result<PlanReport, Memory>
    ensures timed { IfOk result (IsTimed envelope) }
    ensures steps { steps.new ≤ steps.old
        + block_cells * (row_count envelope.plan + 2 * section_count envelope.plan) }
{
    if let Reach::Stalled { k } = envelope.reach() {
        return Ok(PlanReport::Stall(k));
    }
    let length = envelope.line().length();
    let (plan, sums, speeds) = (envelope.plan(), envelope.sums(), envelope.speeds());
    let rows = planned(alloc, plan, length, sums, speeds, steps)?;
    Ok(PlanReport::Times(TimetableReport { rows, envelope }))
}
