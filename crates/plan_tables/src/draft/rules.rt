//! What a record gives, or the least rule that it breaks after the records before it.

ghost use Rattle.std.specs.Prelude.{◌≡◌, ◌≤◌, IfOk, IfSome, OnErr, OnOk, Some, is_some};
ghost use Rattle.std.specs.Option.{option_or};
ghost use Rattle.csv.specs.Records.{fields_of};
ghost use Rattle.line_tables.specs.Names.{is_name};
ghost use Rattle.line_tables.specs.Points.{find_point};
ghost use Rattle.record_rules.specs.Faults.{GivesOne, TakesOne};
ghost use Rattle.record_rules.specs.Records.{field};
ghost use Rattle.unit_rules.specs.Numeral.{number_in};
ghost use Rattle.plan_tables.specs.Calls.{IsCallKind};
ghost use Rattle.plan_tables.specs.Draft.{MayCall, MayFollow, is_past, last_call, sections_end};
ghost use Rattle.plan_tables.specs.PlanFile.{allow_rule, call_from, call_of, call_rule, kind_of, may_follow, number_rule, pass_rule, section_of, stop_rule};

use super::Draft;
use crate::kinds::{Kind, allow_kind_of};
use crate::limits::{LONGEST_DWELL, MOST_CALLS, MOST_SECTIONS, greatest_amount};
use crate::{Call, CallKind, Section};
use csv::ByteRecord;
use line_tables::Name;
use record_rules::{
    FIELD_COUNT, MISSPELLED, NO_SUCH_POINT, OUT_OF_ORDER, OUT_OF_RANGE, REPEATED, Stop, TOO_MANY,
    field, numeral,
};
use std::alloc::Global;
use unit_rules::{Memory, within};

// Takes the number up to `most` of a `depart`, `enter` or `leave` record, which no earlier one has
// said.
pub(super) fn take_number(said: &mut Option<u32>, row: &ByteRecord, most: u32) -> Result<(), Stop>
    ensures taken { TakesOne (number_rule most said.old (fields_of row.now))
        (said.new ≡ option_or said.old (number_in 0 most (field (fields_of row.now) 1))) result }
    ensures range { OnOk result (IfSome said.new (λ n. n ≤ most)) }
    ensures err { OnErr result (said.new ≡ said.old) }
{
    if row.len() != 2 {
        return Err(Stop::Broken { rule: FIELD_COUNT });
    }
    let Some(number) = numeral(row, 1) else {
        return Err(Stop::Broken { rule: MISSPELLED });
    };
    let Some(number) = within(0, most, number) else {
        return Err(Stop::Broken { rule: OUT_OF_RANGE });
    };
    if said.is_some() {
        return Err(Stop::Broken { rule: REPEATED });
    }
    *said = Some(number);
    Ok(())
}

// The name that the second field of a record is, if it is one.
fn read_name(alloc: Global, row: &ByteRecord) -> Result<Option<Name>, Memory>
    ensures there { IfOk result (λ name. is_some name ≡ is_name (field (fields_of row.now) 1)) }
    ensures name { IfOk result (λ name. IfSome name (λ n. n ≡ field (fields_of row.now) 1)) }
{
    Name::of(alloc, field(row, 1))
}

impl Draft<'_> {
    // The call that a `stop` record gives.
    pub(super) fn read_stop(&self, alloc: Global, row: &ByteRecord) -> Result<Call, Stop>
        requires { kind_of (field (fields_of row.now) 0) ≡ Some Kind.Stop }
        ensures call { GivesOne (stop_rule self.now (fields_of row.now))
            (λ c. call_of self.now.line (fields_of row.now) ≡ Some c) result }
        ensures may { IfOk result (MayCall self.now) }
    {
        if row.len() != 3 {
            return Err(Stop::Broken { rule: FIELD_COUNT });
        }
        let Ok(name) = read_name(alloc, row) else {
            return Err(Stop::Memory);
        };
        let (Some(name), Some(dwell)) = (name, numeral(row, 2)) else {
            return Err(Stop::Broken { rule: MISSPELLED });
        };
        let Some(dwell) = within(0, LONGEST_DWELL, dwell) else {
            return Err(Stop::Broken { rule: OUT_OF_RANGE });
        };
        self.call_at(name, CallKind::Stop { dwell })
    }

    // The call that a `pass` record gives.
    pub(super) fn read_pass(&self, alloc: Global, row: &ByteRecord) -> Result<Call, Stop>
        requires { kind_of (field (fields_of row.now) 0) ≡ Some Kind.Pass }
        ensures call { GivesOne (pass_rule self.now (fields_of row.now))
            (λ c. call_of self.now.line (fields_of row.now) ≡ Some c) result }
        ensures may { IfOk result (MayCall self.now) }
    {
        if row.len() != 2 {
            return Err(Stop::Broken { rule: FIELD_COUNT });
        }
        let Ok(name) = read_name(alloc, row) else {
            return Err(Stop::Memory);
        };
        let Some(name) = name else {
            return Err(Stop::Broken { rule: MISSPELLED });
        };
        self.call_at(name, CallKind::Pass)
    }

    // The call at the point of that name.
    fn call_at(&self, name: Name, kind: CallKind) -> Result<Call, Stop>
        requires { IsCallKind kind }
        ensures call { GivesOne (call_rule self.now (find_point name self.now.line.points))
            (λ c. call_from (find_point name self.now.line.points) name (Some kind) ≡ Some c)
            result }
        ensures may { IfOk result (MayCall self.now) }
    {
        let Some(at) = self.line.find(name.bytes()) else {
            return Err(Stop::Broken {
                rule: NO_SUCH_POINT,
            });
        };
        if !self.is_past(at) {
            return Err(Stop::Broken { rule: OUT_OF_ORDER });
        }
        if self.calls.len() >= MOST_CALLS {
            return Err(Stop::Broken { rule: TOO_MANY });
        }
        Ok(Call { at, name, kind })
    }

    // Whether a position is past the last call so far.
    fn is_past(&self, at: u32) -> bool
        ensures { result ≡ is_past (last_call self.now) at }
    {
        match self.calls.last() {
            Some(call) => call.at < at,
            None => true,
        }
    }

    // The section that an `allow` record gives.
    pub(super) fn read_section(&self, row: &ByteRecord) -> Result<Section, Stop>
        requires { kind_of (field (fields_of row.now) 0) ≡ Some Kind.Allow }
        ensures section { GivesOne (allow_rule self.now (fields_of row.now))
            (λ s. section_of self.now.line (fields_of row.now) ≡ Some s) result }
        ensures may { IfOk result (MayFollow self.now) }
    {
        if row.len() != 5 {
            return Err(Stop::Broken { rule: FIELD_COUNT });
        }
        let (Some(from), Some(to), Some(kind), Some(amount)) = (
            numeral(row, 1),
            numeral(row, 2),
            allow_kind_of(field(row, 3)),
            numeral(row, 4),
        ) else {
            return Err(Stop::Broken { rule: MISSPELLED });
        };
        let last = self.line.length();
        let (Some(from), Some(to), Some(amount)) = (
            within(0, last, from),
            within(0, last, to),
            within(0, greatest_amount(kind), amount),
        ) else {
            return Err(Stop::Broken { rule: OUT_OF_RANGE });
        };
        if !self.may_follow(from, to) {
            return Err(Stop::Broken { rule: OUT_OF_ORDER });
        }
        if self.sections.len() >= MOST_SECTIONS {
            return Err(Stop::Broken { rule: TOO_MANY });
        }
        Ok(Section {
            from,
            to,
            kind,
            amount,
        })
    }

    // Whether a section between these positions may come next.
    fn may_follow(&self, from: u32, to: u32) -> bool
        ensures { result ≡ may_follow self.now (Some from) (Some to) }
    {
        from < to && from >= self.sections_end()
    }

    // The position at which the sections so far end.
    fn sections_end(&self) -> u32
        ensures { result ≡ sections_end self.now }
    {
        match self.sections.last() {
            Some(section) => section.to,
            None => 0,
        }
    }
}
