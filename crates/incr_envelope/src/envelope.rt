//! The fastest run of a train over a line by a plan, under the restrictions in force.

ghost use Rattle.std.specs.Prelude.{◌≡◌, ◌⊎◌, ◌+◌, ◌-◌, ◌*◌, ◌≤◌, [], length, All, IsOk, IfErr, IfOk, OnErr, OnOk, Err, Ok, Some, max, min};
ghost use Rattle.unit_rules.specs.Limits.{longest_line, longest_train};
ghost use Rattle.unit_rules.specs.Zone.{LiesOn};
ghost use Rattle.plan_tables.specs.Plan.{PlanLiesOn};
ghost use Rattle.case_rules.specs.Case.{train_rule};
ghost use Rattle.run_rules.specs.Runs.{IsMonotone};
ghost use Rattle.run_rules.specs.Speeds.{squared};
ghost use Rattle.restrictions.specs.Force.{put_in, take_from, zone_of, zones_of};
ghost use Rattle.incr_envelope.specs.Envelope.{IsFromScratch, IsOf, IsOneCase, arrival_in, respared, touched_by};
ghost use Rattle.time_brackets.specs.Sums.{block_cells};

use crate::run::Run;
use crate::scratch::course_of;
use crate::walks::{first_run, known_by, run_again};
use allowances::arrival_at;
use limit_profile::Limits;
use line_tables::Line;
use plan_tables::Plan;
use restrictions::{EditFault, Id, InForce};
use std::alloc::Global;
use std::marker::Model;
use std::sync::ledger::Ledger;
use step_rule::Rule;
use stock_tables::Stock;
use time_brackets::{Bracket, Sums};
use unit_rules::{Memory, Reach, Steps, Zone};

/// A train on a line by a plan, the restrictions in force, and its fastest run under them, which is
/// kept right while they are put in force and taken out.
#[derive(Drop)]
pub struct Envelope {
    line: Line,
    plan: Plan,
    // The train's mass in kg, and its length in metres.
    mass: u32,
    train: u32,
    rule: Rule,
    limits: Limits,
    force: InForce,
    // How many more restrictions can be put with no more memory.
    spare: usize,
    run: Run,
}

impl Model for Envelope {
    ghost use Rattle.incr_envelope.specs.Envelope.{EnvelopeView};
    ghost use Rattle.incr_envelope.specs.Kept.{IsKept, view_of};

    ghost Value = { EnvelopeView };

    ghost view = { λ e. view_of (record {
      line = e.line;
      plan = e.plan;
      mass = e.mass;
      train = e.train;
      motion = e.rule;
      limits = e.limits;
      force = e.force;
      spare = e.spare;
      run = e.run;
    }) };

    ghost invariant = { λ e. IsKept (record {
      line = e.line;
      plan = e.plan;
      mass = e.mass;
      train = e.train;
      motion = e.rule;
      limits = e.limits;
      force = e.force;
      spare = e.spare;
      run = e.run;
    }) };
}

impl Envelope {
    /// The fastest run of a train over a line by a plan, with nothing in force.
    pub fn new<L: Ledger>(
        alloc: Global,
        line: Line,
        stock: Stock,
        plan: Plan,
        steps: &mut Steps<L>,
    ) -> Result<Envelope, Memory>
        requires { PlanLiesOn line.length plan }
        ensures case { IfOk result (IsOf line stock plan []) }
        ensures kept { IfOk result IsFromScratch }
        ensures monotone { IfOk result (λ _. IsMonotone (train_rule line stock)
            line.length (squared stock.top)) }
        ensures cost { steps.new ≤ steps.old + 35 * (line.length + 1) }
    {
        let force = InForce::new(alloc);
        Envelope::under(alloc, line, stock, plan, force, steps)
    }

    /// The fastest run of a train over a line by a plan, under the restrictions in force.
    pub fn under<L: Ledger>(
        alloc: Global,
        line: Line,
        stock: Stock,
        plan: Plan,
        force: InForce,
        steps: &mut Steps<L>,
    ) -> Result<Envelope, Memory>
        requires plan { PlanLiesOn line.length plan }
        requires zones { All (LiesOn line.length) (zones_of force.pairs) }
        ensures case { IfOk result (IsOf line stock plan force.pairs) }
        ensures kept { IfOk result IsFromScratch }
        ensures monotone { IfOk result (λ _. IsMonotone (train_rule line stock)
            line.length (squared stock.top)) }
        ensures cost { steps.new ≤ steps.old + (33 * (line.length + 1) + 2 * line.length) }
    {
        let (mass, train) = (stock.mass(), stock.length());
        let (limits, rule) = course_of(alloc, &line, stock, &plan, &force)?;
        // What a rule keeps is told by its calls.
        let _cells = rule.cells();
        let run = first_run(alloc, &rule, &limits, steps)?;
        let envelope = Envelope {
            line,
            plan,
            mass,
            train,
            rule,
            limits,
            force,
            spare: 0,
            run,
        };
        // What an envelope keeps is told by its calls.
        let _reach = envelope.reach();
        Ok(envelope)
    }

    /// Makes room for so many restrictions to be put with no more memory, where there isn't room for
    /// as many yet. A refusal changes nothing.
    pub fn reserve(&mut self, count: usize) -> Result<(), Memory>
        ensures made { OnOk result (self.new ≡ respared self.old (max self.old.spare count)) }
        ensures refused { OnErr result (self.new ≡ self.old) }
        ensures enough { count ≤ self.old.spare → IsOk result }
    {
        if count <= self.spare {
            return Ok(());
        }
        self.force.reserve(count)?;
        self.limits.reserve(count)?;
        self.spare = count;
        Ok(())
    }

    /// Puts a restriction in force, behind the others, and answers how far the train gets then. A
    /// refusal changes nothing. Where there is spare room it takes no memory.
    pub fn put<L: Ledger>(
        &mut self,
        id: Id,
        zone: Zone,
        steps: &mut Steps<L>,
    ) -> Result<Reach, EditFault>
        requires { LiesOn self.old.line.length zone }
        ensures put { IfOk result (λ _. put_in id zone self.old.force ≡ Ok self.new.force) }
        ensures reach { IfOk result (λ reach. reach ≡ self.new.reach) }
        ensures spare { IfOk result (λ _. self.new.spare ≡ self.old.spare - 1) }
        ensures cost { IfOk result (λ _. steps.new ≤ steps.old
            + 35 * (touched_by zone self.old self.new + 2) + 1024) }
        ensures refused { IfErr result
            (λ f. (f ≡ EditFault.Memory) ⊎ (put_in id zone self.old.force ≡ Err f)) }
        ensures same { OnErr result ((self.new ≡ self.old) × (steps.new ≡ steps.old)) }
        ensures room { 1 ≤ self.old.spare → result ≡ Err EditFault.Memory → ⊥ }
        ensures one_case { IsOneCase self.old self.new }
        ensures kept { IsFromScratch self.new }
    {
        let Ok(()) = self.limits.reserve(1) else {
            return Err(EditFault::Memory);
        };
        self.force.put(id, zone)?;
        self.limits.add(zone);
        self.spare = self.spare.saturating_sub(1);
        let to = last_bound(self.line.length(), self.train, zone);
        run_again(
            &self.rule,
            &self.limits,
            zone.from,
            to,
            &mut self.run,
            steps,
        );
        Ok(self.reach())
    }

    /// Takes a restriction out of force, and answers how far the train gets then; the others keep
    /// their order. A refusal changes nothing. It takes no memory.
    pub fn take<L: Ledger>(&mut self, id: Id, steps: &mut Steps<L>) -> Result<Reach, EditFault>
        ensures taken { IfOk result (λ _. take_from id self.old.force ≡ Ok self.new.force) }
        ensures reach { IfOk result (λ reach. reach ≡ self.new.reach) }
        ensures spare { IfOk result (λ _. self.new.spare ≡ self.old.spare + 1) }
        ensures cost { IfOk result (λ _. (z : Zone) → zone_of id self.old.force ≡ Some z
            → steps.new ≤ steps.old + 35 * (touched_by z self.old self.new + 2) + 1024) }
        ensures refused { IfErr result (λ f. take_from id self.old.force ≡ Err f) }
        ensures same { OnErr result ((self.new ≡ self.old) × (steps.new ≡ steps.old)) }
        ensures one_case { IsOneCase self.old self.new }
        ensures kept { IsFromScratch self.new }
    {
        let zone = self.force.take(id)?;
        self.limits.remove(zone);
        prove!(self.spare < self.force.spare());
        self.spare += 1;
        let to = last_bound(self.line.length(), self.train, zone);
        run_again(
            &self.rule,
            &self.limits,
            zone.from,
            to,
            &mut self.run,
            steps,
        );
        Ok(self.reach())
    }

    /// The squared speeds by point, in (0.01 km/h)², up to the end of the line or to the stall.
    pub fn speeds(&self) -> &[u32]
        ensures speeds { result.now ≡ self.now.speeds }
        ensures kept { IsFromScratch self.now }
    {
        &self.run.speeds[..self.known() as usize]
    }

    /// The braking list: by point the greatest squared speed, in (0.01 km/h)², from which the train can
    /// brake for all that is ahead.
    pub fn brake_list(&self) -> &[u32]
        ensures list { result.now ≡ self.now.brakes }
        ensures kept { IsFromScratch self.now }
    {
        &self.run.brakes
    }

    /// How far the train gets.
    pub fn reach(&self) -> Reach
        ensures reach { result ≡ self.now.reach }
        ensures kept { IsFromScratch self.now }
    {
        self.run.reach
    }

    /// The restrictions in force.
    pub fn in_force(&self) -> &InForce
        ensures force { result.now.pairs ≡ self.now.force }
        ensures kept { IsFromScratch self.now }
    {
        &self.force
    }

    /// The line.
    pub fn line(&self) -> &Line
        ensures line { result.now ≡ self.now.line }
    {
        &self.line
    }

    /// The plan.
    pub fn plan(&self) -> &Plan
        ensures plan { result.now ≡ self.now.plan }
    {
        &self.plan
    }

    /// The sums of the times.
    pub fn sums(&self) -> &Sums
        ensures sums { result.now ≡ self.now.sums }
        ensures kept { IsFromScratch self.now }
    {
        &self.run.sums
    }

    /// When the train comes to a point; `None` exactly where this is at or past its stall.
    pub fn bracket<L: Ledger>(&self, point: u32, steps: &mut Steps<L>) -> Option<Bracket>
        requires on_line { point ≤ self.now.line.length }
        ensures arrival { result ≡ arrival_in self.now point }
        ensures cost { steps.new ≤ steps.old + block_cells }
    {
        if point >= self.known() {
            return None;
        }
        let Run { speeds, sums, .. } = &self.run;
        Some(arrival_at(&self.plan, sums, speeds, point, steps))
    }

    // How many speeds are known.
    fn known(&self) -> u32
        ensures known { result ≡ length self.now.speeds }
        ensures short { self.now.line.length ≤ longest_line }
        ensures kept { IsFromScratch self.now }
    {
        known_by(self.run.reach, self.line.length())
    }
}

// The last point at which a zone binds.
fn last_bound(length: u32, train: u32, zone: Zone) -> u32
    requires lies { LiesOn length zone }
    requires short { (length ≤ longest_line) × (train ≤ longest_train) }
    ensures { result ≡ min length (zone.to + train) }
{
    length.min(zone.to + train)
}
