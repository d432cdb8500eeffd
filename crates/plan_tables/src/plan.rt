//! The plan that a plan file describes.

ghost use Rattle.std.specs.Prelude.{◌≡◌, ℕ};
ghost use Rattle.plan_tables.specs.Plan.{IsPlan, PlanLiesOn, empty_plan};

use line_tables::Name;
use std::alloc::Global;
use std::marker::Model;

/// What a train does at a point.
#[derive(Clone, Copy, Debug, PartialEq, Eq)]
pub enum CallKind {
    /// It stands for `dwell` seconds.
    Stop { dwell: u32 },
    /// It goes by.
    Pass,
}

/// A stop or a pass, at the point `name` of the line.
#[derive(Drop)]
pub struct Call {
    /// The position of the point, in metres.
    pub at: u32,
    /// The name of the point.
    pub name: Name,
    /// What the train does there.
    pub kind: CallKind,
}

/// What the amount of an allowance is counted in.
#[derive(Clone, Copy, Debug, PartialEq, Eq)]
pub enum AllowKind {
    /// Tenths of a percent of the running time.
    Percent,
    /// Seconds for each 100 km.
    Per100km,
    /// Seconds.
    Fixed,
}

/// An allowance of `amount`, counted by its kind, from point `from` to point `to` of the line.
#[derive(Clone, Copy, Debug, PartialEq, Eq)]
pub struct Section {
    /// The point at which it begins.
    pub from: u32,
    /// The point at which it ends.
    pub to: u32,
    /// What the amount is counted in.
    pub kind: AllowKind,
    /// How much is added over the section.
    pub amount: u32,
}

/// What a train is to do on a line: when it departs, how fast it is at both ends, where it calls, and
/// where time is added to its running.
#[derive(Drop)]
pub struct Plan {
    depart: u32,
    enter: u32,
    leave: u32,
    calls: Vec<Call>,
    sections: Vec<Section>,
}

impl Model for Plan {
    ghost use Rattle.plan_tables.specs.Plan.{IsPlan, PlanView};

    ghost Value = { PlanView };

    ghost view = { λ p. record {
      depart = p.depart;
      enter = p.enter;
      leave = p.leave;
      calls = p.calls.items;
      sections = p.sections.items;
    } };

    ghost invariant = { λ p. IsPlan (record {
      depart = p.depart;
      enter = p.enter;
      leave = p.leave;
      calls = p.calls.items;
      sections = p.sections.items;
    }) };
}

impl Plan {
    /// The plan that says nothing: the train departs at 0, stands at both ends, and calls nowhere.
    pub fn new(alloc: Global) -> Plan
        ensures plan { result ≡ empty_plan }
        ensures lies { (length : ℕ) → PlanLiesOn length result }
    {
        Plan {
            depart: 0,
            enter: 0,
            leave: 0,
            calls: Vec::new(alloc),
            sections: Vec::new(alloc),
        }
    }

    pub(crate) fn of(
        depart: u32,
        enter: u32,
        leave: u32,
        calls: Vec<Call>,
        sections: Vec<Section>,
    ) -> Plan
        requires { IsPlan (record {
          depart = depart;
          enter = enter;
          leave = leave;
          calls = calls.items;
          sections = sections.items;
        }) }
        ensures { result ≡ record {
          depart = depart;
          enter = enter;
          leave = leave;
          calls = calls.items;
          sections = sections.items;
        } }
    {
        Plan {
            depart,
            enter,
            leave,
            calls,
            sections,
        }
    }

    /// The departure, in seconds; 0 where the file says none.
    pub fn depart(&self) -> u32
        ensures depart { result ≡ self.now.depart }
        ensures kept { IsPlan self.now }
    {
        self.depart
    }

    /// The speed in km/h at which the train enters the line at point 0; 0 where the file says none.
    pub fn enter(&self) -> u32
        ensures enter { result ≡ self.now.enter }
        ensures kept { IsPlan self.now }
    {
        self.enter
    }

    /// The speed in km/h at which the train leaves the line at its end; 0 where the file says none.
    pub fn leave(&self) -> u32
        ensures leave { result ≡ self.now.leave }
        ensures kept { IsPlan self.now }
    {
        self.leave
    }

    /// The stops and passes, each past the one before it: at most 1,000.
    pub fn calls(&self) -> &[Call]
        ensures calls { result.now ≡ self.now.calls }
        ensures kept { IsPlan self.now }
    {
        self.calls.as_slice()
    }

    /// The sections with an allowance, each beginning where the one before it ends, or after that: at
    /// most 1,000.
    pub fn sections(&self) -> &[Section]
        ensures sections { result.now ≡ self.now.sections }
        ensures kept { IsPlan self.now }
    {
        self.sections.as_slice()
    }
}
