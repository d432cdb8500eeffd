//! A plan while the records of its file are read.

ghost use Rattle.std.specs.Prelude.{◌≡◌, None, []};
ghost use Rattle.csv.specs.Records.{fields_of};
ghost use Rattle.record_rules.specs.Faults.{TakesOne};
ghost use Rattle.plan_tables.specs.Draft.{MayCall, MayFollow, finished_plan, with_call, with_section};
ghost use Rattle.plan_tables.specs.PlanFile.{draft_of, rule_after, with_record};

mod rules;

use crate::draft::rules::take_number;
use crate::kinds::{Kind, kind_of};
use crate::limits::LATEST_DEPARTURE;
use crate::{Call, Plan, Section};
use csv::ByteRecord;
use line_tables::Line;
use record_rules::{RecordReader, Stop, UNKNOWN_KIND, field};
use std::alloc::Global;
use std::marker::Model;
use unit_rules::GREATEST_SPEED;

// The line of a plan, and what the records so far say: the departure, the speeds at both ends, and
// the calls and sections.
#[derive(Drop)]
pub(crate) struct Draft<'a> {
    line: &'a Line,
    depart: Option<u32>,
    enter: Option<u32>,
    leave: Option<u32>,
    calls: Vec<Call>,
    sections: Vec<Section>,
}

impl<'a> Model for Draft<'a> {
    ghost use Rattle.plan_tables.specs.Draft.{DraftView, IsDraft};

    ghost Value = { DraftView };

    ghost view = { λ d. record {
      line = d.line.now;
      depart = d.depart;
      enter = d.enter;
      leave = d.leave;
      calls = d.calls.items;
      sections = d.sections.items;
    } };

    ghost invariant = { λ d. IsDraft (record {
      line = d.line.now;
      depart = d.depart;
      enter = d.enter;
      leave = d.leave;
      calls = d.calls.items;
      sections = d.sections.items;
    }) };
}

impl<'a> Draft<'a> {
    pub(crate) fn new(alloc: Global, line: &'a Line) -> Draft<'a>
        ensures { result ≡ draft_of line.now [] }
    {
        Draft {
            line,
            depart: None,
            enter: None,
            leave: None,
            calls: Vec::new(alloc),
            sections: Vec::new(alloc),
        }
    }

    // Puts a call behind those so far.
    fn take_call(&mut self, call: Call) -> Result<(), Stop>
        requires { MayCall self.old call }
        ensures { TakesOne None (self.new ≡ with_call self.old call) result }
    {
        match self.calls.push(call) {
            Ok(()) => Ok(()),
            Err(_) => Err(Stop::Memory),
        }
    }

    // Puts a section behind those so far.
    fn take_section(&mut self, section: Section) -> Result<(), Stop>
        requires { MayFollow self.old section }
        ensures { TakesOne None (self.new ≡ with_section self.old section) result }
    {
        match self.sections.push(section) {
            Ok(()) => Ok(()),
            Err(_) => Err(Stop::Memory),
        }
    }

    // Takes the next record, or names the least rule that it breaks.
    fn take_record(&mut self, alloc: Global, row: &ByteRecord) -> Result<(), Stop>
        ensures { TakesOne (rule_after self.old (fields_of row.now))
            (self.new ≡ with_record self.old (fields_of row.now)) result }
    {
        match kind_of(field(row, 0)) {
            None => Err(Stop::Broken { rule: UNKNOWN_KIND }),
            Some(Kind::Comment) => Ok(()),
            Some(Kind::Depart) => take_number(&mut self.depart, row, LATEST_DEPARTURE),
            Some(Kind::Enter) => take_number(&mut self.enter, row, GREATEST_SPEED),
            Some(Kind::Leave) => take_number(&mut self.leave, row, GREATEST_SPEED),
            Some(Kind::Stop) => {
                let call = self.read_stop(alloc, row)?;
                self.take_call(call)
            }
            Some(Kind::Pass) => {
                let call = self.read_pass(alloc, row)?;
                self.take_call(call)
            }
            Some(Kind::Allow) => {
                let section = self.read_section(row)?;
                self.take_section(section)
            }
        }
    }

    /// The plan that the records say.
    pub(crate) fn finish(self) -> Plan
        ensures { result ≡ finished_plan self.entry }
    {
        let Draft {
            line: _,
            depart,
            enter,
            leave,
            calls,
            sections,
        } = self;
        Plan::of(
            depart.unwrap_or(0),
            enter.unwrap_or(0),
            leave.unwrap_or(0),
            calls,
            sections,
        )
    }
}

impl RecordReader for Draft<'_> {
    ghost rule = { λ begun before r. rule_after (draft_of begun.line before) r };

    ghost says = { λ begun d before. d ≡ draft_of begun.line before };

    fn take(&mut self, alloc: Global, row: &ByteRecord) -> Result<(), Stop> {
        self.take_record(alloc, row)
    }
}
