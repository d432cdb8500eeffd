//! What a record gives, or the least rule that it breaks after the records before it.

ghost use Rattle.std.specs.Prelude.{◌≡◌, ◌≤◌, ◌&&◌, not, nat_lt, is_some, IsSome, IsTrue, Some, None, IfErr, OnOk, IfOk};
ghost use Rattle.unit_rules.specs.Limits.{longest_line};
ghost use Rattle.csv.specs.Records.{fields_of};
ghost use Rattle.record_rules.specs.Records.{field};
ghost use Rattle.unit_rules.specs.Zone.{LiesOn};
ghost use Rattle.line_tables.specs.LineFile.{gradient_rule, kind_of, last_position, limit_rule, line_of, line_rule, point_of, point_rule, slope_of, slopes_end, zone_of};
ghost use Rattle.line_tables.specs.Names.{is_name};
ghost use Rattle.line_tables.specs.Points.{find_point};
ghost use Rattle.line_tables.specs.Slope.{Follows, SlopeLiesOn};

use super::Draft;
use crate::Slope;
use crate::kinds::Kind;
use crate::names::is_name;
use csv::ByteRecord;
use record_rules::{FIELD_COUNT, MISSPELLED, OUT_OF_ORDER, OUT_OF_RANGE, REPEATED, field, numeral};
use unit_rules::{GREATEST_SPEED, LONGEST_LINE, Zone, signed_within, within};

impl Draft {
    // The length that a `line` record gives.
    pub(crate) fn read_length(&self, row: &ByteRecord) -> Result<u32, u32>
        requires { kind_of (field (fields_of row.now) 0) ≡ Some Kind.Line }
        ensures rule { IfErr result (λ rule. line_rule self.now (fields_of row.now) ≡ Some rule) }
        ensures ok { OnOk result (line_rule self.now (fields_of row.now) ≡ None) }
        ensures length { IfOk result
            (λ n. line_of (fields_of row.now) ≡ Some (field (fields_of row.now) 1, n)) }
        ensures name { OnOk result (IsTrue (is_name (field (fields_of row.now) 1))) }
        ensures range { IfOk result (λ n. (2 ≤ n) × (n ≤ longest_line)) }
        ensures first { OnOk result (self.now.line ≡ None) }
    {
        if row.len() != 3 {
            return Err(FIELD_COUNT);
        }
        if !is_name(field(row, 1)) {
            return Err(MISSPELLED);
        }
        let Some(length) = numeral(row, 2) else {
            return Err(MISSPELLED);
        };
        let Some(length) = within(2, LONGEST_LINE, length) else {
            return Err(OUT_OF_RANGE);
        };
        if self.line.is_some() {
            return Err(REPEATED);
        }
        Ok(length)
    }

    // The slope that a `gradient` record gives.
    pub(crate) fn read_slope(&self, row: &ByteRecord) -> Result<Slope, u32>
        requires { kind_of (field (fields_of row.now) 0) ≡ Some Kind.Gradient }
        ensures rule { IfErr result
            (λ rule. gradient_rule self.now (fields_of row.now) ≡ Some rule) }
        ensures ok { OnOk result (gradient_rule self.now (fields_of row.now) ≡ None) }
        ensures slope { IfOk result (λ s. slope_of (fields_of row.now) ≡ Some s) }
        ensures lies { IfOk result (SlopeLiesOn (last_position self.now)) }
        ensures follows { IfOk result (λ s. slopes_end self.now ≤ s.from) }
        ensures line { OnOk result (IsSome self.now.line) }
    {
        if row.len() != 4 {
            return Err(FIELD_COUNT);
        }
        let (Some(from), Some(to), Some(tenths)) = (
            numeral(row, 1),
            numeral(row, 2),
            numeral(row, 3),
        ) else {
            return Err(MISSPELLED);
        };
        let last = self.last_position();
        let (Some(from), Some(to), Some(tenths)) = (
            within(0, last, from),
            within(0, last, to),
            signed_within(-1000, 1000, tenths),
        ) else {
            return Err(OUT_OF_RANGE);
        };
        if !self.may_climb(from, to) {
            return Err(OUT_OF_ORDER);
        }
        Ok(Slope { from, to, tenths })
    }

    // Whether a slope between these positions may come next.
    fn may_climb(&self, from: u32, to: u32) -> bool
        ensures { result ≡ (is_some self.now.line
            && (nat_lt from to && not (nat_lt from (slopes_end self.now)))) }
    {
        self.line.is_some() && from < to && from >= self.slopes_end()
    }

    // The zone that a `limit` record gives.
    pub(crate) fn read_zone(&self, row: &ByteRecord) -> Result<Zone, u32>
        requires { kind_of (field (fields_of row.now) 0) ≡ Some Kind.Limit }
        ensures rule { IfErr result (λ rule. limit_rule self.now (fields_of row.now) ≡ Some rule) }
        ensures ok { OnOk result (limit_rule self.now (fields_of row.now) ≡ None) }
        ensures zone { IfOk result (λ z. zone_of (fields_of row.now) ≡ Some z) }
        ensures lies { IfOk result (LiesOn (last_position self.now)) }
        ensures line { OnOk result (IsSome self.now.line) }
    {
        if row.len() != 4 {
            return Err(FIELD_COUNT);
        }
        let (Some(from), Some(to), Some(kmh)) = (numeral(row, 1), numeral(row, 2), numeral(row, 3))
        else {
            return Err(MISSPELLED);
        };
        let last = self.last_position();
        let (Some(from), Some(to), Some(kmh)) = (
            within(0, last, from),
            within(0, last, to),
            within(1, GREATEST_SPEED, kmh),
        ) else {
            return Err(OUT_OF_RANGE);
        };
        if self.line.is_none() || from >= to {
            return Err(OUT_OF_ORDER);
        }
        Ok(Zone { from, to, kmh })
    }

    // The position that a `point` record gives.
    pub(crate) fn read_position(&self, row: &ByteRecord) -> Result<u32, u32>
        requires { kind_of (field (fields_of row.now) 0) ≡ Some Kind.Point }
        ensures rule { IfErr result (λ rule. point_rule self.now (fields_of row.now) ≡ Some rule) }
        ensures ok { OnOk result (point_rule self.now (fields_of row.now) ≡ None) }
        ensures point { IfOk result
            (λ at. point_of (fields_of row.now) ≡ Some (field (fields_of row.now) 2, at)) }
        ensures name { OnOk result (IsTrue (is_name (field (fields_of row.now) 2))) }
        ensures lies { IfOk result (λ at. at ≤ last_position self.now) }
        ensures line { OnOk result (IsSome self.now.line) }
        ensures fresh { OnOk result
            (find_point (field (fields_of row.now) 2) self.now.points ≡ None) }
    {
        if row.len() != 3 {
            return Err(FIELD_COUNT);
        }
        let Some(position) = numeral(row, 1) else {
            return Err(MISSPELLED);
        };
        let name = field(row, 2);
        if !is_name(name) {
            return Err(MISSPELLED);
        }
        let Some(position) = within(0, self.last_position(), position) else {
            return Err(OUT_OF_RANGE);
        };
        if self.line.is_none() {
            return Err(OUT_OF_ORDER);
        }
        if self.points.find(name).is_some() {
            return Err(REPEATED);
        }
        Ok(position)
    }
}
