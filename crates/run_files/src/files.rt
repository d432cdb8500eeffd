//! The files that a form reads: fetched by name, and read by the reader of their kind.

ghost use Rattle.std.specs.Prelude.{◌≡◌, ◌≤◌, ◌∷◌, ℕ, List, [], Err, IfErr, IfOk, None, Some};
ghost use Rattle.run_files.specs.CaseTexts.{IsCaseOf, StopsTexts};
ghost use Rattle.run_files.specs.Files.{AreInForce, IsCase, IsClaim, IsRead, Reading, case_files, cert_reading, claim_files, edits_reading, file_read, line_file, line_reading, plan_reading, stock_file, stock_reading};
ghost use Rattle.run_files.specs.Loads.{AsksOnce, Fetched, Loads, MayRefuse, edits_read, file_named, name_in};
ghost use Rattle.run_files.specs.ReaderLaws.{cert_refuses, edits_refuses, line_refuses, plan_refuses, stock_refuses};
ghost use Rattle.run_files.specs.declared.status.Status.TheVariants.{Memory as NoMemory};
ghost use Rattle.run_words.specs.Requests.{case_view};
ghost use Rattle.unit_rules.specs.Memory.{Gives};

use crate::Status;
use crate::cases::{Case, Claim};
use crate::edits::Restrictions;
use certificate::{Cert, read_cert};
use line_tables::{Line, read_line};
use plan_tables::{Plan, read_plan};
use restrictions::{InForce, read_edits};
use run_io::{Fetch, Shelf};
use run_words::{CaseForm, CheckForm};
use std::alloc::Global;
use stock_tables::{Stock, read_stock};
use unit_rules::MOST_BYTES;

/// The number of line files among the files of all forms.
pub(crate) const LINE_FILE: u32 = 1;

/// The number of stock files.
pub(crate) const STOCK_FILE: u32 = 2;

/// The number of plan files.
pub(crate) const PLAN_FILE: u32 = 3;

/// The number of edits files.
pub(crate) const EDITS_FILE: u32 = 4;

/// The number of certificate files.
pub(crate) const CERT_FILE: u32 = 5;

/// The number of a session's input.
pub const INPUT: u32 = 6;

/// A reader of one kind of file.
pub(crate) trait Reader {
    /// What such a file reads as.
    type Table: Drop;

    /// The kind of file: its number, and what bytes read as.
    ghost reading: { Self → Reading Self.Table };

    fn number(&self) -> u32
        ensures { result ≡ (reading self.now).number };

    /// Reads the bytes of a file.
    fn read(&self, alloc: Global, bytes: &[u8]) -> Result<Self::Table, Status>
        ensures reads { Gives (Err NoMemory) ((reading self.now).read bytes.now) result }
        ensures kept { IfOk result (reading self.now).keeps };

    /// A fault is a refusal of the file of that number.
    ghost refuses: { (r : Self) (bytes : List ℕ)
        → MayRefuse (reading r).number ((reading r).read bytes) };
}

/// The reader of line files.
#[derive(Drop)]
pub(crate) struct LineReader;

impl Reader for LineReader {
    type Table = Line;

    ghost reading = { λ r. line_reading };

    fn number(&self) -> u32 {
        LINE_FILE
    }

    fn read(&self, alloc: Global, bytes: &[u8]) -> Result<Line, Status> {
        Ok(read_line(alloc, bytes)?)
    }

    ghost refuses = { λ r. line_refuses };
}

/// The reader of stock files.
#[derive(Drop)]
pub(crate) struct StockReader;

impl Reader for StockReader {
    type Table = Stock;

    ghost reading = { λ r. stock_reading };

    fn number(&self) -> u32 {
        STOCK_FILE
    }

    fn read(&self, alloc: Global, bytes: &[u8]) -> Result<Stock, Status> {
        Ok(read_stock(alloc, bytes)?)
    }

    ghost refuses = { λ r. stock_refuses };
}

/// The reader of the plan files of a line.
#[derive(Drop)]
pub(crate) struct PlanReader<'a> {
    line: &'a Line,
}

impl<'a> Reader for PlanReader<'a> {
    type Table = Plan;

    ghost reading = { λ r. plan_reading r.line.now };

    fn number(&self) -> u32 {
        PLAN_FILE
    }

    fn read(&self, alloc: Global, bytes: &[u8]) -> Result<Plan, Status> {
        Ok(read_plan(alloc, bytes, self.line)?)
    }

    ghost refuses = { λ r. plan_refuses r.line.now };
}

/// The reader of the edits files of a line.
#[derive(Drop)]
pub(crate) struct EditsReader<'a> {
    line: &'a Line,
}

impl<'a> Reader for EditsReader<'a> {
    type Table = Restrictions;

    ghost reading = { λ r. edits_reading r.line.now };

    fn number(&self) -> u32 {
        EDITS_FILE
    }

    fn read(&self, alloc: Global, bytes: &[u8]) -> Result<Restrictions, Status> {
        let force = read_edits(alloc, bytes, self.line.length())?;
        Ok(Restrictions::of(force))
    }

    ghost refuses = { λ r. edits_refuses r.line.now };
}

/// The reader of certificates.
#[derive(Drop)]
pub(crate) struct CertReader;

impl Reader for CertReader {
    type Table = Cert;

    ghost reading = { λ r. cert_reading };

    fn number(&self) -> u32 {
        CERT_FILE
    }

    fn read(&self, alloc: Global, bytes: &[u8]) -> Result<Cert, Status> {
        Ok(read_cert(alloc, bytes)?)
    }

    ghost refuses = { λ r. cert_refuses };
}

/// The claim of the files of these names: first those of the case, and then the certificate.
pub fn load_claim<S: Shelf>(
    alloc: Global,
    shelf: &mut S,
    form: &CheckForm<'_>,
) -> Result<Claim, Status>
    ensures claim { IfOk result (IsClaim (case_view form.now.case) form.now.cert.now
        (S.told shelf.old).holds) }
    ensures loads { Loads (claim_files (case_view form.now.case) form.now.cert.now)
        (S.told shelf.old) (S.told shelf.new) result }
    ensures asks { AsksOnce (claim_files (case_view form.now.case) form.now.cert.now)
        (S.asked shelf.old) (S.asked shelf.new) }
{
    let case = load_case(alloc, shelf, &form.case)?;
    let cert = load_file(alloc, shelf, &CertReader, form.cert)?;
    Ok(Claim { case, cert })
}

/// The case of the files of these names, the line file first, then the stock file, the plan file and
/// the edits file, if there is one.
pub fn load_case<S: Shelf>(
    alloc: Global,
    shelf: &mut S,
    form: &CaseForm<'_>,
) -> Result<Case, Status>
    ensures case { IfOk result (IsCase (case_view form.now) (S.told shelf.old).holds) }
    ensures loads { Loads (case_files (case_view form.now))
        (S.told shelf.old) (S.told shelf.new) result }
    ensures asks { AsksOnce (case_files (case_view form.now))
        (S.asked shelf.old) (S.asked shelf.new) }
{
    let (line, stock) = load_both(alloc, shelf, form.line, form.stock)?;
    let (plan, force) = load_orders(alloc, shelf, &line, form.plan, form.edits)?;
    Ok(Case {
        line,
        stock,
        plan,
        force,
    })
}

/// The case of the texts of a line file, a stock file and a plan file, which are read in this order.
/// Nothing is in force in it.
pub fn read_case(alloc: Global, line: &[u8], stock: &[u8], plan: &[u8]) -> Result<Case, Status>
    ensures read { IfOk result (λ c. IsCaseOf line.now stock.now plan.now c.line c.stock c.plan) }
    ensures stops { IfErr result (StopsTexts line.now stock.now plan.now) }
{
    let line = LineReader.read(alloc, line)?;
    let stock = StockReader.read(alloc, stock)?;
    let plan = PlanReader { line: &line }.read(alloc, plan)?;
    Ok(Case {
        line,
        stock,
        plan,
        force: InForce::new(alloc),
    })
}

// The plan and the restrictions of the files of these names, for a line, the plan file first.
fn load_orders<S: Shelf>(
    alloc: Global,
    shelf: &mut S,
    line: &Line,
    plan_name: &str,
    edits_name: Option<&str>,
) -> Result<(Plan, InForce), Status>
    ensures plan { IfOk result (λ both.
        IsRead (plan_reading line.now) (S.told shelf.old).holds plan_name.now both.0) }
    ensures force { IfOk result (λ both.
        AreInForce line.now (name_in edits_name.entry) (S.told shelf.old).holds both.1.pairs) }
    ensures loads { Loads (file_read (plan_reading line.now) plan_name.now
        ∷ edits_read line.now (name_in edits_name.entry)) (S.told shelf.old) (S.told shelf.new) result }
    ensures asks { AsksOnce (file_read (plan_reading line.now) plan_name.now
        ∷ edits_read line.now (name_in edits_name.entry)) (S.asked shelf.old) (S.asked shelf.new) }
{
    let plan = load_file(alloc, shelf, &PlanReader { line }, plan_name)?;
    let force = load_edits(alloc, shelf, line, edits_name)?;
    Ok((plan, force))
}

// The restrictions of the edits file of that name, for a line; without a name there are none.
fn load_edits<S: Shelf>(
    alloc: Global,
    shelf: &mut S,
    line: &Line,
    name: Option<&str>,
) -> Result<InForce, Status>
    ensures force { IfOk result (λ force.
        AreInForce line.now (name_in name.entry) (S.told shelf.old).holds force.pairs) }
    ensures loads { Loads (edits_read line.now (name_in name.entry))
        (S.told shelf.old) (S.told shelf.new) result }
    ensures asks { AsksOnce (edits_read line.now (name_in name.entry))
        (S.asked shelf.old) (S.asked shelf.new) }
{
    match name {
        None => Ok(InForce::new(alloc)),
        Some(name) => {
            let restrictions = load_file(alloc, shelf, &EditsReader { line }, name)?;
            Ok(restrictions.into_force())
        }
    }
}

/// The line and the stock of the files of these names, the line file first.
pub fn load_both<S: Shelf>(
    alloc: Global,
    shelf: &mut S,
    line_name: &str,
    stock_name: &str,
) -> Result<(Line, Stock), Status>
    ensures line { IfOk result
        (λ both. IsRead line_reading (S.told shelf.old).holds line_name.now both.0) }
    ensures stock { IfOk result
        (λ both. IsRead stock_reading (S.told shelf.old).holds stock_name.now both.1) }
    ensures loads { Loads (line_file line_name.now ∷ stock_file stock_name.now ∷ [])
        (S.told shelf.old) (S.told shelf.new) result }
    ensures asks { AsksOnce (line_file line_name.now ∷ stock_file stock_name.now ∷ [])
        (S.asked shelf.old) (S.asked shelf.new) }
{
    let line = load_line(alloc, shelf, line_name)?;
    let stock = load_stock(alloc, shelf, stock_name)?;
    Ok((line, stock))
}

/// The line of the line file of that name.
pub fn load_line<S: Shelf>(alloc: Global, shelf: &mut S, name: &str) -> Result<Line, Status>
    ensures line { IfOk result (IsRead line_reading (S.told shelf.old).holds name.now) }
    ensures loads { Loads (line_file name.now ∷ []) (S.told shelf.old) (S.told shelf.new) result }
    ensures asks { AsksOnce (line_file name.now ∷ []) (S.asked shelf.old) (S.asked shelf.new) }
{
    load_file(alloc, shelf, &LineReader, name)
}

/// The stock of the stock file of that name.
pub fn load_stock<S: Shelf>(alloc: Global, shelf: &mut S, name: &str) -> Result<Stock, Status>
    ensures stock { IfOk result (IsRead stock_reading (S.told shelf.old).holds name.now) }
    ensures loads { Loads (stock_file name.now ∷ []) (S.told shelf.old) (S.told shelf.new) result }
    ensures asks { AsksOnce (stock_file name.now ∷ []) (S.asked shelf.old) (S.asked shelf.new) }
{
    load_file(alloc, shelf, &StockReader, name)
}

// The table of the file of that name.
fn load_file<R: Reader, S: Shelf>(
    alloc: Global,
    shelf: &mut S,
    reader: &R,
    name: &str,
) -> Result<R::Table, Status>
    ensures table { IfOk result
        (IsRead (R.reading reader.now) (S.told shelf.old).holds name.now) }
    ensures loads { Loads (file_read (R.reading reader.now) name.now ∷ [])
        (S.told shelf.old) (S.told shelf.new) result }
    ensures asks { AsksOnce (file_read (R.reading reader.now) name.now ∷ [])
        (S.asked shelf.old) (S.asked shelf.new) }
{
    let bytes = fetch_file(alloc, shelf, reader.number(), name)?;
    reader.read(alloc, bytes.as_slice())
}

// The bytes of a file, which has that number among the files of a form.
fn fetch_file<S: Shelf>(
    alloc: Global,
    shelf: &mut S,
    number: u32,
    name: &str,
) -> Result<Vec<u8>, Status>
    ensures bytes { IfOk result (λ bytes. Fetched (S.told shelf.old).holds name.now bytes.items) }
    ensures loads { Loads (file_named number name.now ∷ [])
        (S.told shelf.old) (S.told shelf.new) result }
    ensures asks { AsksOnce (file_named number name.now ∷ [])
        (S.asked shelf.old) (S.asked shelf.new) }
{
    let mut bytes = Vec::new(alloc);
    match shelf.fetch(name, MOST_BYTES, &mut bytes) {
        Ok(()) => Ok(bytes),
        Err(Fetch::Failed | Fetch::Absent) => Err(Status::ReadFault),
        Err(Fetch::TooLong) => Err(Status::TooLong { file: number }),
        Err(Fetch::Memory) => Err(Status::Memory),
    }
}
