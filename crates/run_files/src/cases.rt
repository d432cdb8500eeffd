//! A train on a line, by a plan and under the restrictions in force; and what is claimed of its run.

ghost use Rattle.std.specs.Prelude.{◌≤◌, All};
ghost use Rattle.plan_tables.specs.Plan.{PlanLiesOn};
ghost use Rattle.restrictions.specs.Force.{zones_of};
ghost use Rattle.unit_rules.specs.Limits.{greatest_speed, longest_line};
ghost use Rattle.unit_rules.specs.Zone.{LiesOn};

use certificate::Cert;
use line_tables::Line;
use plan_tables::Plan;
use restrictions::InForce;
use stock_tables::Stock;

/// A case: a line, a train, a plan that lies on the line, and restrictions that do.
#[derive(Drop)]
pub struct Case {
    /// The line.
    pub line: Line,
    /// The train.
    pub stock: Stock,
    /// The plan.
    pub plan: Plan,
    /// The restrictions in force.
    pub force: InForce,
    pub ghost lies: { PlanLiesOn line.length plan },
    pub ghost fast: { stock.top ≤ greatest_speed },
    pub ghost short: { line.length ≤ longest_line },
    pub ghost placed: { All (LiesOn line.length) (zones_of force.pairs) },
}

/// A case, and a certificate that is said to be its own.
#[derive(Drop)]
pub struct Claim {
    /// The case.
    pub case: Case,
    /// The certificate.
    pub cert: Cert,
}
