//! The line that a line file describes.

ghost use Rattle.std.specs.Prelude.{◌≡◌, ◌≢◌, ◌≤◌, All, Contains, IfNone, IfSome};
ghost use Rattle.line_tables.specs.Points.{find_point};
ghost use Rattle.line_tables.specs.Line.{IsLine};

use crate::Name;
use crate::points::Points;
use std::marker::Model;
use unit_rules::Zone;

/// A gradient of `tenths` tenths of a per mille, from point `from` up to point `to` of a line.
#[derive(Clone, Copy, Debug, PartialEq, Eq)]
pub struct Slope {
    /// The point at which it begins.
    pub from: u32,
    /// The point at which it ends.
    pub to: u32,
    /// The rise in tenths of a per mille, below 0 where the line falls, with the resistance of
    /// curves in it.
    pub tenths: i32,
}

/// A railway line: its name, its length in metres, and its slopes, speed limits and points in the
/// order of the file.
#[derive(Drop)]
pub struct Line {
    name: Name,
    length: u32,
    slopes: Vec<Slope>,
    limits: Vec<Zone>,
    points: Points,
}

impl Model for Line {
    ghost use Rattle.line_tables.specs.Line.{IsLine, LineView};

    ghost Value = { LineView };

    ghost view = { λ l. record {
      name = l.name;
      length = l.length;
      slopes = l.slopes.items;
      limits = l.limits.items;
      points = l.points;
    } };

    ghost invariant = { λ l. IsLine (record {
      name = l.name;
      length = l.length;
      slopes = l.slopes.items;
      limits = l.limits.items;
      points = l.points;
    }) };
}

impl Line {
    pub(crate) fn new(
        name: Name,
        length: u32,
        slopes: Vec<Slope>,
        limits: Vec<Zone>,
        points: Points,
    ) -> Line
        requires { IsLine (record {
          name = name;
          length = length;
          slopes = slopes.items;
          limits = limits.items;
          points = points;
        }) }
        ensures { result ≡ record {
          name = name;
          length = length;
          slopes = slopes.items;
          limits = limits.items;
          points = points;
        } }
    {
        Line {
            name,
            length,
            slopes,
            limits,
            points,
        }
    }

    /// The length in metres.
    pub fn length(&self) -> u32
        ensures length { result ≡ self.now.length }
        ensures kept { IsLine self.now }
    {
        self.length
    }

    pub fn name(&self) -> &Name
        ensures name { result.now ≡ self.now.name }
    {
        &self.name
    }

    /// The slopes, each beginning where the one before it ends, or after that. Where there is none
    /// the line is level.
    pub fn slopes(&self) -> &[Slope]
        ensures slopes { result.now ≡ self.now.slopes }
    {
        self.slopes.as_slice()
    }

    /// The speed limits, in the order of the file.
    pub fn limits(&self) -> &[Zone]
        ensures limits { result.now ≡ self.now.limits }
    {
        self.limits.as_slice()
    }

    /// The position of the point of that name, in metres; `None` exactly where no point has it.
    pub fn find(&self, name: &[u8]) -> Option<u32>
        ensures value { result ≡ find_point name.now self.now.points }
        ensures there { IfSome result (λ at. Contains self.now.points (name.now, at)) }
        ensures none { IfNone result (All (λ p. p.0 ≢ name.now) self.now.points) }
        ensures lies { IfSome result (λ at. at ≤ self.now.length) }
    {
        self.points.find(name)
    }
}
