//! A line while the records of its file are read.

ghost use Rattle.std.specs.Prelude.{◌≡◌, ◌≤◌, IfSome, Some, []};
ghost use Rattle.unit_rules.specs.Limits.{longest_line};
ghost use Rattle.csv.specs.Records.{fields_of};
ghost use Rattle.record_rules.specs.Faults.{TakesOne};
ghost use Rattle.record_rules.specs.Records.{field};
ghost use Rattle.line_tables.specs.LineFile.{draft_of, finished_line, gradient_rule, kind_of, last_position, limit_rule, line_rule, point_rule, rule_after, slopes_end, with_record};
ghost use Rattle.line_tables.specs.Line.{IsLine};

mod rules;

use crate::kinds::{Kind, kind_of};
use crate::points::Points;
use crate::{Line, Name, Slope};
use csv::ByteRecord;
use record_rules::{RecordReader, Stop, UNKNOWN_KIND, field};
use std::alloc::Global;
use std::marker::Model;
use unit_rules::{LONGEST_LINE, Zone};

// What the records so far say: the name and the length of the line, and its slopes, limits and
// points.
#[derive(Drop)]
pub(crate) struct Draft {
    line: Option<(Name, u32)>,
    slopes: Vec<Slope>,
    limits: Vec<Zone>,
    points: Points,
}

impl Model for Draft {
    ghost use Rattle.line_tables.specs.Draft.{DraftView, IsDraft};

    ghost Value = { DraftView };

    ghost view = { λ d. record {
      line = d.line;
      slopes = d.slopes.items;
      limits = d.limits.items;
      points = d.points;
    } };

    ghost invariant = { λ d. IsDraft (record {
      line = d.line;
      slopes = d.slopes.items;
      limits = d.limits.items;
      points = d.points;
    }) };
}

impl Draft {
    pub(crate) fn new(alloc: Global) -> Draft
        ensures { result ≡ draft_of [] }
    {
        Draft {
            line: None,
            slopes: Vec::new(alloc),
            limits: Vec::new(alloc),
            points: Points::new(alloc),
        }
    }

    // The greatest position on the line.
    fn last_position(&self) -> u32
        ensures position { result ≡ last_position self.now }
        ensures most { result ≤ longest_line }
    {
        match &self.line {
            Some(line) => line.1,
            None => LONGEST_LINE,
        }
    }

    // The position at which the slopes so far end.
    fn slopes_end(&self) -> u32
        ensures { result ≡ slopes_end self.now }
    {
        match self.slopes.last() {
            Some(slope) => slope.to,
            None => 0,
        }
    }

    fn take_line(&mut self, alloc: Global, row: &ByteRecord) -> Result<(), Stop>
        requires { kind_of (field (fields_of row.now) 0) ≡ Some Kind.Line }
        ensures { TakesOne (line_rule self.old (fields_of row.now))
            (self.new ≡ with_record self.old (fields_of row.now)) result }
    {
        let length = match self.read_length(row) {
            Ok(length) => length,
            Err(rule) => return Err(Stop::Broken { rule }),
        };
        let Ok(name) = Name::copied(alloc, field(row, 1)) else {
            return Err(Stop::Memory);
        };
        self.line = Some((name, length));
        Ok(())
    }

    fn take_gradient(&mut self, row: &ByteRecord) -> Result<(), Stop>
        requires { kind_of (field (fields_of row.now) 0) ≡ Some Kind.Gradient }
        ensures { TakesOne (gradient_rule self.old (fields_of row.now))
            (self.new ≡ with_record self.old (fields_of row.now)) result }
    {
        let slope = match self.read_slope(row) {
            Ok(slope) => slope,
            Err(rule) => return Err(Stop::Broken { rule }),
        };
        match self.slopes.push(slope) {
            Ok(()) => Ok(()),
            Err(_) => Err(Stop::Memory),
        }
    }

    fn take_limit(&mut self, row: &ByteRecord) -> Result<(), Stop>
        requires { kind_of (field (fields_of row.now) 0) ≡ Some Kind.Limit }
        ensures { TakesOne (limit_rule self.old (fields_of row.now))
            (self.new ≡ with_record self.old (fields_of row.now)) result }
    {
        let zone = match self.read_zone(row) {
            Ok(zone) => zone,
            Err(rule) => return Err(Stop::Broken { rule }),
        };
        match self.limits.push(zone) {
            Ok(()) => Ok(()),
            Err(_) => Err(Stop::Memory),
        }
    }

    fn take_point(&mut self, alloc: Global, row: &ByteRecord) -> Result<(), Stop>
        requires { kind_of (field (fields_of row.now) 0) ≡ Some Kind.Point }
        ensures { TakesOne (point_rule self.old (fields_of row.now))
            (self.new ≡ with_record self.old (fields_of row.now)) result }
    {
        let position = match self.read_position(row) {
            Ok(position) => position,
            Err(rule) => return Err(Stop::Broken { rule }),
        };
        let Ok(name) = Name::copied(alloc, field(row, 2)) else {
            return Err(Stop::Memory);
        };
        match self.points.add(name, position) {
            Ok(()) => Ok(()),
            Err(_) => Err(Stop::Memory),
        }
    }

    // Takes the next record, or names the least rule that it breaks.
    fn take_record(&mut self, alloc: Global, row: &ByteRecord) -> Result<(), Stop>
        ensures { TakesOne (rule_after self.old (fields_of row.now))
            (self.new ≡ with_record self.old (fields_of row.now)) result }
    {
        match kind_of(field(row, 0)) {
            None => Err(Stop::Broken { rule: UNKNOWN_KIND }),
            Some(Kind::Comment) => Ok(()),
            Some(Kind::Line) => self.take_line(alloc, row),
            Some(Kind::Gradient) => self.take_gradient(row),
            Some(Kind::Limit) => self.take_limit(row),
            Some(Kind::Point) => self.take_point(alloc, row),
        }
    }

    /// The line, if there was a record of it.
    pub(crate) fn finish(self) -> Option<Line>
        ensures line { result ≡ finished_line self }
        ensures kept { IfSome result IsLine }
    {
        let Draft {
            line,
            slopes,
            limits,
            points,
        } = self;
        match line {
            Some((name, length)) => Some(Line::new(name, length, slopes, limits, points)),
            None => None,
        }
    }
}

impl RecordReader for Draft {
    ghost rule = { λ _ before r. rule_after (draft_of before) r };

    ghost says = { λ _ d before. d ≡ draft_of before };

    fn take(&mut self, alloc: Global, row: &ByteRecord) -> Result<(), Stop> {
        self.take_record(alloc, row)
    }
}
