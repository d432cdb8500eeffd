//! A form is served in one way: its files are loaded, its report is made of them, and then written.

ghost use Rattle.std.specs.Prelude.{◌≡◌, ◌≤◌, ◌+◌, ℕ, List, [], Option, Some, OnOk, OnErr, IfOk};
ghost use Rattle.run_io.specs.Fetches.{Files};
ghost use Rattle.run_io.specs.Told.{HasCause, Writes, WritesFront};
ghost use Rattle.run_files.specs.Loads.{AsksOnce, Loads};
ghost use Rattle.run_files.specs.Statuses.{status_text};
ghost use Rattle.run_files.specs.declared.status.Status.{Status as Ending};
ghost use Rattle.run_cli.specs.Ends.{outside};
ghost use Rattle.run_cli.specs.Forms.{meaning_of};
ghost use Rattle.run_cli.specs.Meanings.{IsFileForm};
ghost use Rattle.run_cli.specs.Serves.{Finishes, IsMeant, IsServed, Works};
ghost use Rattle.run_words.specs.Requests.{Request};

use run_files::Status;
use run_io::{Block, Failed, Shelf, Sink, Source};
use std::alloc::Global;
use std::sync::ledger::Ledger;
use unit_rules::{Memory, Steps};

/// What a form has found, ready to be written.
pub(crate) trait Report {
    /// The text that is written.
    ghost text: { Self → List ℕ };

    /// The status under which it is the whole text.
    ghost ending: { Self → Ending };

    /// How many steps the writing takes at most.
    ghost work: { Self → ℕ };

    /// Writes the text, which takes no memory. After a failure a front of it was written.
    fn write<K: Sink, L: Ledger>(&self, out: &mut K, steps: &mut Steps<L>) -> Result<(), Failed>
        ensures ok { OnOk result (Writes (K.told out.old) (K.told out.new) (text self.now)) }
        ensures failed { OnErr result (WritesFront (K.told out.old) (K.told out.new)
            (text self.now)) }
        ensures cause { HasCause (K.told out.old) (K.told out.new) result }
        ensures steps { steps.new ≤ steps.old + work self.now };

    /// The status once the text was written.
    fn status(&self) -> Status
        ensures { result ≡ ending self.now };
}

/// A form that reads files alone.
pub(crate) trait Form {
    /// What its files read as.
    type Tables: Drop;

    type Report: Report + Drop;

    /// What is asked for.
    ghost request: { Self → Request };

    /// The tables are those of the files, where they are told.
    ghost are: { Self → Option Files → Self.Tables → Type 0 };

    /// The report is that of the tables.
    ghost right: { Self → Self.Tables → Self.Report → Type 0 };

    /// How many steps it takes at most to make the report and write it.
    ghost cost: { Self → Self.Tables → ℕ };

    /// Fetches and reads the files, in the order of the form.
    fn load<S: Shelf>(&self, alloc: Global, shelf: &mut S) -> Result<Self::Tables, Status>
        ensures loads { Loads
            ((meaning_of (Some (request self.now))).reads (S.told shelf.old).holds)
            (S.told shelf.old) (S.told shelf.new) result }
        ensures asks { AsksOnce
            ((meaning_of (Some (request self.now))).reads (S.told shelf.old).holds)
            (S.asked shelf.old) (S.asked shelf.new) }
        ensures are { IfOk result (are self.now (S.told shelf.old).holds) };

    /// Makes the report, and takes all memory that the form needs beside its tables.
    fn make<L: Ledger>(
        &self,
        alloc: Global,
        tables: Self::Tables,
        steps: &mut Steps<L>,
    ) -> Result<Self::Report, Memory>
        ensures right { IfOk result (right self.now tables) }
        ensures steps { steps.new ≤ steps.old + cost self.now tables }
        ensures left { IfOk result (λ r.
            steps.new + Self.Report.work r ≤ steps.old + cost self.now tables) };

    /// The form reads no input, and has written nothing where it is stopped.
    ghost files_alone: { (f : Self) → IsFileForm (meaning_of (Some (request f))) };

    /// The right report of the right tables is what the form means.
    ghost means: { (f : Self) (told : Option Files) (t : Self.Tables) (r : Self.Report)
        → are f told t → right f t r
        → IsMeant (meaning_of (Some (request f))) told
        (Self.Report.ending r) (Self.Report.text r) };

    /// And its steps are allowed.
    ghost allows: { (f : Self) (told : Option Files) (t : Self.Tables) → are f told t
        → (meaning_of (Some (request f))).steps told [] (cost f t) };
}

/// Serves a form that reads files alone.
pub(crate) fn serve<F: Form, S: Shelf, I: Source, K: Sink, L: Ledger>(
    alloc: Global,
    form: &F,
    shelf: &mut S,
    _input: &mut I,
    out: &mut K,
    steps: &mut Steps<L>,
) -> Status
    ensures { IsServed (meaning_of (Some (F.request form.now)))
        (outside (S.told shelf.old) (I.told _input.old) (K.told out.old))
        (outside (S.told shelf.new) (I.told _input.new) (K.told out.new))
        steps.old steps.new (S.asked shelf.old) (S.asked shelf.new) result }
{
    match form.load(alloc, shelf) {
        Ok(tables) => work(alloc, form, tables, out, steps),
        Err(status) => refuse(status, out),
    }
}

// Makes and writes the report of a form over its tables.
fn work<F: Form, K: Sink, L: Ledger>(
    alloc: Global,
    form: &F,
    tables: F::Tables,
    out: &mut K,
    steps: &mut Steps<L>,
) -> Status
    ensures { (told : Option Files) → F.are form.now told tables
        → Works (meaning_of (Some (F.request form.now))) told
        (K.told out.old) (K.told out.new) steps.old steps.new result }
{
    let Ok(report) = form.make(alloc, tables, steps) else {
        return Status::Memory;
    };
    match report.write(out, steps) {
        Ok(()) => report.status(),
        Err(Failed) => Status::WriteFault,
    }
}

// Writes the own text of a status, and answers how that ends.
pub(crate) fn refuse<K: Sink>(status: Status, out: &mut K) -> Status
    ensures { Finishes status (K.told out.old) (K.told out.new) result }
{
    match write_status(out, status) {
        Ok(()) => status,
        Err(Failed) => Status::WriteFault,
    }
}

// Writes the own text of a status.
pub(crate) fn write_status<K: Sink>(out: &mut K, status: Status) -> Result<(), Failed>
    ensures ok { OnOk result (Writes (K.told out.old) (K.told out.new) (status_text status)) }
    ensures failed { OnErr result (WritesFront (K.told out.old) (K.told out.new)
        (status_text status)) }
    ensures cause { HasCause (K.told out.old) (K.told out.new) result }
{
    let mut block = Block::new();
    status.put(&mut block);
    block.flush(out)
}
