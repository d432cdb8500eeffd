//! Certificates as they are read.

ghost use Rattle.std.specs.Prelude.{◌≡◌, ◌+◌, ◌<◌, ◌≤◌, ◌^◌, ◌∷◌, ◌++◌, [], Err, IfOk, MatchResult, Ok, length};
ghost use Rattle.std.specs.Result.{result_map_both};
ghost use Rattle.unit_rules.specs.Memory.{Gives};
ghost use Rattle.certificate.specs.Lines.{line_of, parts_of};
ghost use Rattle.certificate.specs.Reading.{read_as_cert};
ghost use Rattle.certificate.specs.Texts.{CertView, IsCert, text_of};
ghost use Rattle.certificate.specs.Walk.{DraftView, added, finished, has_dash, judged, read_lines, rule_of_rest, with_row};

use crate::lines::{Line, line_of, part_before};
use crate::rows::row_ahead;
use std::alloc::Global;
use std::marker::Model;
use unit_rules::Reach;

/// A certificate of a train's run over a line, with squared speeds in (0.01 km/h)².
#[derive(Drop)]
pub struct Cert {
    /// For each point the greatest squared speed from which the train can still brake.
    pub c: Vec<u32>,
    /// The greatest squared speeds of the run, for the points before a stall; no more than `c` has.
    pub e: Vec<u32>,
    /// How far the train gets.
    pub verdict: Reach,
}

impl Model for Cert {
    ghost use Rattle.certificate.specs.Texts.{CertView};

    ghost Value = { CertView };

    ghost view = { λ x. record { c = x.c.items; e = x.e.items; verdict = x.verdict } };
}

/// Why a text is no certificate.
#[derive(Clone, Copy, Debug, PartialEq, Eq)]
pub enum CertText {
    /// The number of the first bad line, counted from 1, and the least rule that it breaks: 1, it
    /// stands after the verdict line; 2, it has none of the four forms; 3, it has two numbers, and a
    /// row before it has a dash; 4, the text ends before a verdict line and its line feed.
    Bad { place: u64, rule: u32 },
    /// Memory was wanted and could not be had.
    Memory,
}

/// Reads the text of a certificate: a line `C E` or `C -` for each point, and then `whole` or
/// `stalled K`, each with a line feed.
pub fn read_cert(alloc: Global, bytes: &[u8]) -> Result<Cert, CertText>
    ensures certificate { Gives (Err CertText.Memory) (read_as_cert bytes.now) result }
    ensures text { IfOk result (λ cert. bytes.now ≡ text_of cert) }
    ensures values { IfOk result IsCert }
    ensures only { (x : CertView) → IsCert x → bytes.now ≡ text_of x
        → Gives (Err CertText.Memory) (Ok x) result }
{
    read_lines(alloc, bytes)
}

// Reads a certificate line by line.
fn read_lines(alloc: Global, bytes: &[u8]) -> Result<Cert, CertText>
    ensures { Gives (Err CertText.Memory) (read_as_cert bytes.now) result }
{
    let mut rows = Draft::new(alloc);
    let mut rest = bytes;
    while let Some(line) = part_before(rest, b'\n') {
        rest = line.rest;
        if let Some(verdict) = rows.add(line.part)? {
            return rows.finish(verdict, rest);
        }
        rest = rows.add_rows(rest)?;
    }
    Err(rows.bad(rows.rule_of_rest(rest)))
}

// The rows of a text so far.
#[derive(Drop)]
struct Draft {
    c: Vec<u32>,
    e: Vec<u32>,
}

impl Model for Draft {
    ghost use Rattle.certificate.specs.Walk.{DraftView};

    ghost Value = { DraftView };

    ghost view = { λ r. record { c = r.c.items; e = r.e.items } };
}

impl Draft {
    fn new(alloc: Global) -> Draft
        ensures { result ≡ record { c = []; e = [] } }
    {
        Draft {
            c: Vec::new(alloc),
            e: Vec::new(alloc),
        }
    }

    // Whether a row has a dash.
    fn has_dash(&self) -> bool
        ensures { result ≡ has_dash self.now }
    {
        self.e.len() < self.c.len()
    }

    // How many rows there are.
    fn count(&self) -> u64
        ensures count { result ≡ length self.now.c }
        ensures bound { result < 2 ^ 63 }
    {
        self.c.len() as u64
    }

    // The fault of the next line, which breaks a rule.
    fn bad(&self, rule: u32) -> CertText
        ensures { result ≡ CertText.Bad (length self.now.c + 1) rule }
    {
        CertText::Bad {
            place: self.count() + 1,
            rule,
        }
    }

    // What the next line says, or the rule of 2 and 3 that it breaks.
    fn judge(&self, line: &[u8]) -> Result<Line, u32>
        ensures { result ≡ judged self.now (line_of line.now) }
    {
        match line_of(line) {
            None => Err(2),
            Some(Line::Full { .. }) if self.has_dash() => Err(3),
            Some(line) => Ok(line),
        }
    }

    // The rule that the bytes behind the last line feed break.
    fn rule_of_rest(&self, rest: &[u8]) -> u32
        ensures { result ≡ rule_of_rest self.now rest.now }
    {
        if rest.is_empty() {
            return 4;
        }
        match self.judge(rest) {
            Ok(_line) => 4,
            Err(rule) => rule,
        }
    }

    // Adds the row that the next line is, or gives the verdict that it is.
    fn add(&mut self, line: &[u8]) -> Result<Option<Reach>, CertText>
        ensures { Gives (Err CertText.Memory)
            (added self.old (judged self.old (line_of line.now)))
            (result_map_both (λ v. (self.new, v)) (λ e. e) result) }
    {
        match self.judge(line) {
            Ok(line) => self.add_line(line),
            Err(rule) => Err(self.bad(rule)),
        }
    }

    // Adds the row that a line is, or gives the verdict that it is.
    fn add_line(&mut self, line: Line) -> Result<Option<Reach>, CertText>
        ensures { Gives (Err CertText.Memory) (added self.old (Ok line))
            (result_map_both (λ v. (self.new, v)) (λ e. e) result) }
    {
        match line {
            Line::Full { c, e } => {
                self.add_row(c, e)?;
                Ok(None)
            }
            Line::Dashed { c } => {
                push(&mut self.c, c)?;
                Ok(None)
            }
            Line::Verdict(verdict) => Ok(Some(verdict)),
        }
    }

    // Adds the rows of two numbers that a text begins with, where no row has a dash, and gives what is
    // behind them. A row with the bytes of the one before is that row again.
    fn add_rows<'a>(&mut self, text: &'a [u8]) -> Result<&'a [u8], CertText>
        ensures reads { MatchResult result (λ rest. read_lines self.new (parts_of rest.now)
            ≡ read_lines self.old (parts_of text.now)) (λ fault. fault ≡ CertText.Memory) }
        ensures shorter { IfOk result (λ rest. length rest.now ≤ length text.now) }
    {
        let mut rest = text;
        if self.has_dash() {
            return Ok(rest);
        }
        while let Some(row) = row_ahead(rest) {
            self.add_row(row.c, row.e)?;
            rest = row.rest;
            while let Some(more) = rest.strip_prefix(row.line) {
                self.add_row(row.c, row.e)?;
                rest = more;
            }
        }
        Ok(rest)
    }

    // Adds a row of two numbers.
    fn add_row(&mut self, c: u32, e: u32) -> Result<(), CertText>
        ensures { Gives (Err CertText.Memory) (Ok (with_row self.old c e))
            (result_map_both (λ _. self.new) (λ e. e) result) }
    {
        push(&mut self.c, c)?;
        push(&mut self.e, e)
    }

    // The certificate of these rows and a verdict, where nothing stands behind its line.
    fn finish(self, verdict: Reach, behind: &[u8]) -> Result<Cert, CertText>
        ensures { result ≡ finished self verdict (parts_of behind.now) }
    {
        if behind.is_empty() {
            return Ok(Cert {
                c: self.c,
                e: self.e,
                verdict,
            });
        }
        Err(CertText::Bad {
            place: self.count() + 2,
            rule: 1,
        })
    }
}

// Puts a number behind a list.
fn push(list: &mut Vec<u32>, number: u32) -> Result<(), CertText>
    ensures { Gives (Err CertText.Memory) (Ok (list.old.items ++ number ∷ []))
        (result_map_both (λ _. list.new.items) (λ e. e) result) }
{
    match list.push(number) {
        Ok(()) => Ok(()),
        Err(_) => Err(CertText::Memory),
    }
}
