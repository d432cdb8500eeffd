//! The reports of the forms.

ghost use Rattle.std.specs.Prelude.{◌≡◌, ◌≤◌, ◌+◌, ◌*◌, OnOk, OnErr};
ghost use Rattle.report_text.specs.Texts.{bands_text, envelope_text, list_text};
ghost use Rattle.run_files.specs.declared.status.Status.TheVariants.{Done};
ghost use Rattle.run_cli.specs.Check as check;
ghost use Rattle.run_cli.specs.Envelope.{envelope_status};
ghost use Rattle.run_cli.specs.Plan.{found_status, found_text};

use crate::cert_report::CertReport;
use crate::form::{Report, write_status};
use crate::timetable_report::TimetableReport;
use cert_check::CertFault;
use incr_envelope::Drive;
use report_text::{
    write_bands, write_envelope, write_list, write_reach, write_timetable, write_valid,
};
use run_files::Status;
use run_io::{Failed, Sink};
use std::sync::ledger::Ledger;
use stock_tables::Stock;
use unit_rules::{Reach, Steps};

// A list by point.
#[derive(Drop)]
pub(crate) struct ListReport {
    pub(crate) numbers: Vec<u32>,
}

impl Report for ListReport {
    ghost text = { λ r. list_text r.numbers.items };

    ghost ending = { λ r. Done };

    ghost work = { λ r. 0 };

    fn write<K: Sink, L: Ledger>(&self, out: &mut K, _steps: &mut Steps<L>) -> Result<(), Failed> {
        write_list(out, self.numbers.as_slice())
    }

    fn status(&self) -> Status {
        Status::Done
    }
}

// The tables of a train.
#[derive(Drop)]
pub(crate) struct StockReport {
    pub(crate) stock: Stock,
}

impl Report for StockReport {
    ghost text = { λ r. bands_text r.stock };

    ghost ending = { λ r. Done };

    ghost work = { λ r. 0 };

    fn write<K: Sink, L: Ledger>(&self, out: &mut K, _steps: &mut Steps<L>) -> Result<(), Failed> {
        write_bands(out, &self.stock)
    }

    fn status(&self) -> Status {
        Status::Done
    }
}

impl Report for Drive {
    ghost text = { λ r. envelope_text r.speeds.items r.reach };

    ghost ending = { λ r. envelope_status r.reach };

    ghost work = { λ r. 0 };

    fn write<K: Sink, L: Ledger>(&self, out: &mut K, _steps: &mut Steps<L>) -> Result<(), Failed> {
        write_envelope(out, self.speeds.as_slice(), self.reach)
    }

    fn status(&self) -> Status {
        match self.reach {
            Reach::Whole => Status::Done,
            Reach::Stalled { k } => Status::Stalled { point: k },
        }
    }
}

// What a plan was found to give: the speeds of its run, or their stall; the times of its calls, or the
// point at which it is stalled; or its certificate.
#[derive(Drop)]
pub(crate) enum PlanReport {
    Speeds(Drive),
    Stall(u32),
    Times(TimetableReport),
    Cert(CertReport),
}

impl Report for PlanReport {
    ghost text = { found_text };

    ghost ending = { found_status };

    ghost work = { λ r. 0 };

    fn write<K: Sink, L: Ledger>(&self, out: &mut K, steps: &mut Steps<L>) -> Result<(), Failed> {
        match self {
            PlanReport::Speeds(drive) => drive.write(out, steps),
            PlanReport::Stall(k) => write_reach(out, Reach::Stalled { k: *k }),
            PlanReport::Times(report) => write_timetable(out, &report.rows, report.envelope.plan()),
            PlanReport::Cert(report) => report.write(out),
        }
    }

    fn status(&self) -> Status {
        match self {
            PlanReport::Speeds(drive) => drive.status(),
            PlanReport::Stall(k) => Status::Stalled { point: *k },
            PlanReport::Times(_) => Status::Done,
            PlanReport::Cert(report) => report.drive.status(),
        }
    }
}

// What was found of a certificate: its reach, where it is right, or the first rule that it breaks.
#[derive(Drop)]
pub(crate) struct CheckReport {
    pub(crate) found: Result<Reach, CertFault>,
}

impl Report for CheckReport {
    ghost text = { λ r. check.found_text r.found };

    ghost ending = { λ r. check.found_status r.found };

    ghost work = { λ r. 0 };

    fn write<K: Sink, L: Ledger>(&self, out: &mut K, _steps: &mut Steps<L>) -> Result<(), Failed> {
        match &self.found {
            Ok(reach) => write_valid(out, *reach),
            Err(fault) => write_status(out, not_valid(fault)),
        }
    }

    fn status(&self) -> Status {
        match &self.found {
            Ok(_) => Status::Done,
            Err(fault) => not_valid(fault),
        }
    }
}

// That a certificate breaks this rule at this point.
fn not_valid(fault: &CertFault) -> Status
    ensures { result ≡ Status.NotValid fault.now.rule fault.now.point }
{
    Status::NotValid {
        rule: fault.rule,
        point: fault.point,
    }
}
