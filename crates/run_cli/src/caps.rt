//! The form `caps`: the cap at each point of a line.

ghost use Rattle.std.specs.Prelude.{◌≡◌, ◌≤◌, ◌+◌, [], Some, IfOk, OnOk, OnErr};
ghost use Rattle.unit_rules.specs.Limits.{longest_line};
ghost use Rattle.limit_profile.specs.Profile.{caps};
ghost use Rattle.run_files.specs.Files.{IsRead, line_reading};
ghost use Rattle.run_files.specs.Loads.{Loads};
ghost use Rattle.run_cli.specs.Caps.{caps_allows, caps_means};
ghost use Rattle.run_cli.specs.FileLaws.{alone};
ghost use Rattle.run_cli.specs.Forms.{meaning_of};
ghost use Rattle.run_rules.specs.Caps.{caps_of};
ghost use Rattle.run_words.specs.Requests.{caps_view};

use crate::form::Form;
use crate::report::ListReport;
use limit_profile::{Level, Limits};
use line_tables::Line;
use run_files::{Status, load_line};
use run_io::Shelf;
use run_words::CapsForm;
use std::alloc::Global;
use std::sync::ledger::Ledger;
use unit_rules::{Memory, Steps};

impl<'a> Form for CapsForm<'a> {
    type Tables = Line;

    type Report = ListReport;

    ghost request = { caps_view };

    ghost are = { λ f told line. IsRead line_reading told f.line.now line };

    ghost right = { λ f line r. r.numbers.items ≡
        caps_of line.length f.train f.top line.limits [] };

    ghost cost = { λ f line. 0 };

    fn load<S: Shelf>(&self, alloc: Global, shelf: &mut S) -> Result<Line, Status> {
        load_line(alloc, shelf, self.line)
    }

    fn make<L: Ledger>(
        &self,
        alloc: Global,
        line: Line,
        _steps: &mut Steps<L>,
    ) -> Result<ListReport, Memory> {
        let limits = Limits::new(
            alloc,
            line.length(),
            self.train,
            self.top,
            line.limits(),
            &[],
        )?;
        let numbers = list_caps(alloc, &limits, line.length())?;
        Ok(ListReport { numbers })
    }

    ghost files_alone = { λ f. alone _ _ _ _ };

    ghost means = { caps_means };

    ghost allows = { caps_allows };
}

// The caps at all points of a line of that length.
fn list_caps(alloc: Global, limits: &Limits, length: u32) -> Result<Vec<u32>, Memory>
    requires length { length ≡ limits.now.length }
    requires short { length ≤ longest_line }
    ensures { IfOk result (λ list. list.items ≡ caps limits.now) }
{
    let mut caps = Vec::new(alloc);
    let mut level = Level::empty();
    for point in 0..length + 1 {
        let Ok(()) = caps.push(limits.cap_near(point, &mut level)) else {
            return Err(Memory);
        };
    }
    Ok(caps)
}
