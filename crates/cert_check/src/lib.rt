//! The checker of certificates: whether a claimed braking list, envelope and verdict are those of a
//! train on a line. It looks at each point and its neighbours alone, and shares the step rule and the
//! caps with the walks that make such lists, and nothing else.
#![tactic(auto)]

ghost use Rattle.std.specs.Prelude.{◌≡◌, ℕ, ◌+◌, ◌-◌, ◌*◌, ◌<◌, ◌≤◌, ◌↔◌, length, slice_index, IfNone, IfOk, IfSome, IsOk, IsTrue};
ghost use Rattle.limit_profile.specs.Levels.{IsLevel};
ghost use Rattle.limit_profile.specs.Profile.{Profile, caps};
ghost use Rattle.step_rule.specs.Motion.{cells_of, kmh_of, most_of, step_rule_of};
ghost use Rattle.cert_check.specs.Faults.{IsFirstBroken, IsLeastBroken, KeepsAll};
ghost use Rattle.cert_check.specs.Laws.{CertifiedAreRight, CertifiedExist, CertifiedOnce, IsCertificateOf};
ghost use Rattle.cert_check.specs.Rules.{BreaksPointRule, BreaksSpeedRule, CanBrake, EndsElsewhere, IsCertified, ShowsStall, StandsTwice};

use certificate::Cert;
use limit_profile::{Level, Limits};
use std::sync::ledger::Ledger;
use step_rule::Rule;
use table_laws::Near;
use unit_rules::{Reach, Steps};

/// The first rule that a certificate breaks. Speeds are squared, in (0.01 km/h)².
#[derive(Debug, Drop)]
pub struct CertFault {
    /// The rule's number, by what breaks it: 1, there isn't a braking number for each point, or there
    /// are more speeds than points; 2, a braking number is above its cap; 3, it is below the cap,
    /// though the train can brake from one more; 4, a speed is above its braking number; 5, it is below
    /// its braking number, at the first point or where full effort gives more; 6, full effort doesn't
    /// give as much; 7, from a braking number the train can't brake to the next; 8, the train stands
    /// at a point and at the one before; 9, the verdict isn't shown.
    pub rule: u32,
    /// The point at which it is broken. A stall may be claimed, and not shown, at any number.
    pub point: u32,
}

/// The verdict of a certificate that breaks no rule, with the train of `rule` under `limits`; else the
/// first rule that it breaks: by the points, and at a point by the numbers, but rule 9 last.
///
/// So exactly the certificate with the braking list, the envelope and its reach is accepted.
pub fn check<L: Ledger>(
    rule: &Rule,
    limits: &Limits,
    cert: &Cert,
    steps: &mut Steps<L>,
) -> Result<Reach, CertFault>
    requires same_length { limits.now.length ≡ cells_of rule.now }
    requires same_top { limits.now.top ≡ kmh_of rule.now }
    ensures verdict { IfOk result (λ reach. reach ≡ cert.now.verdict) }
    ensures valid { IsOk result ↔ IsCertified (step_rule_of rule.now)
        (caps limits.now) cert.now.c cert.now.e cert.now.verdict }
    ensures right { IsOk result ↔ IsCertificateOf (step_rule_of rule.now)
        (caps limits.now) cert.now.c cert.now.e cert.now.verdict }
    ensures broken { (fault : CertFault) → (result ≡ Err fault)
        ↔ IsFirstBroken (step_rule_of rule.now) (caps limits.now)
        cert.now.c cert.now.e cert.now.verdict fault.point fault.rule }
    ensures cost { steps.new ≤ steps.old + 4 * (limits.now.length + 1) }
{
    let _cells = rule.cells();
    match first_fault(rule, limits, &cert.c, &cert.e, cert.verdict, steps) {
        Some(fault) => Err(fault),
        None => Ok(cert.verdict),
    }
}

/// The laws of certificates, whatever the step rule: those that break no rule are those with the braking
/// list, the envelope and its reach, and under the same caps there is exactly one.
pub fn laws_of_certificates()
    ensures right { CertifiedAreRight }
    ensures once { CertifiedOnce }
    ensures exist { CertifiedExist }
{}

// The first rule that a braking list `c`, an envelope `e` and a verdict break.
fn first_fault<L: Ledger>(
    rule: &Rule,
    limits: &Limits,
    c: &[u32],
    e: &[u32],
    verdict: Reach,
    steps: &mut Steps<L>,
) -> Option<CertFault>
    requires same_length { limits.now.length ≡ cells_of rule.now }
    requires same_top { limits.now.top ≡ kmh_of rule.now }
    ensures none { IfNone result (IsCertified (step_rule_of rule.now)
        (caps limits.now) c.now e.now verdict) }
    ensures some { IfSome result (λ fault. IsFirstBroken (step_rule_of rule.now)
        (caps limits.now) c.now e.now verdict fault.point fault.rule) }
    ensures cost { steps.new ≤ steps.old + 4 * (limits.now.length + 1) }
{
    let points = rule.cells() + 1;
    if c.len() != points as usize || e.len() > points as usize {
        return Some(CertFault { rule: 1, point: 0 });
    }
    let mut hints = Hints::new();
    for point in 0..points {
        if let Some(broken) = point_fault(rule, limits, c, e, point, &mut hints, steps) {
            return Some(CertFault {
                rule: broken,
                point,
            });
        }
    }
    let point = unshown_end(rule, c, e, verdict, steps)?;
    Some(CertFault { rule: 9, point })
}

// What the point before tells of where to look: a stretch of one cap, and where its braking number and
// its speed lie in the tables.
#[derive(Drop)]
struct Hints {
    level: Level,
    braking: Near,
    speed: Near,
}

impl Hints {
    // Those that tell nothing.
    fn new() -> Hints
        ensures { (p : Profile) → IsLevel p result.level }
    {
        Hints {
            level: Level::empty(),
            braking: Near::new(),
            speed: Near::new(),
        }
    }
}

// The least of the rules 2 to 8 that is broken at a point.
fn point_fault<L: Ledger>(
    rule: &Rule,
    limits: &Limits,
    c: &[u32],
    e: &[u32],
    point: u32,
    hints: &mut Hints,
    steps: &mut Steps<L>,
) -> Option<u32>
    requires same_length { limits.now.length ≡ cells_of rule.now }
    requires same_top { limits.now.top ≡ kmh_of rule.now }
    requires points { length c.now ≡ cells_of rule.now + 1 }
    requires few { length e.now ≤ length c.now }
    requires on_line { point ≤ cells_of rule.now }
    requires before { 1 ≤ point → point < length e.now
        → slice_index e.now (point - 1) ≤ most_of rule.now }
    requires level { IsLevel limits.now hints.old.level }
    ensures level { IsLevel limits.now hints.new.level }
    ensures none { IfNone result (KeepsAll (BreaksPointRule (step_rule_of rule.now)
        (caps limits.now) c.now e.now point)) }
    ensures some { IfSome result (IsLeastBroken (BreaksPointRule (step_rule_of rule.now)
        (caps limits.now) c.now e.now point)) }
    ensures cost { steps.new ≤ steps.old + 3 }
{
    let here = c[point as usize];
    let cap = limits.cap_near(point, &mut hints.level);
    if here > cap {
        return Some(2);
    }
    if brakes_early(rule, c, point, cap, &mut hints.braking, steps) {
        return Some(3);
    }
    if let Some(broken) = speed_fault(rule, c, e, point, &mut hints.speed, steps) {
        return Some(broken);
    }
    if !can_brake(rule, c, point, here, &mut hints.braking, steps) {
        return Some(7);
    }
    stands_twice(e, point).then_some(8)
}

// Whether the braking number at a point is below the cap there, though the train can brake from one more.
fn brakes_early<L: Ledger>(
    rule: &Rule,
    c: &[u32],
    point: u32,
    cap: u32,
    near: &mut Near,
    steps: &mut Steps<L>,
) -> bool
    requires points { length c.now ≡ cells_of rule.now + 1 }
    requires on_line { point ≤ cells_of rule.now }
    requires in_range { cap ≤ most_of rule.now }
    ensures early { IsTrue result ↔ ((slice_index c.now point < cap)
        × CanBrake (step_rule_of rule.now) c.now point (slice_index c.now point + 1)) }
    ensures cost { steps.new ≤ steps.old + 1 }
{
    let here = c[point as usize];
    here < cap && can_brake(rule, c, point, here + 1, near, steps)
}

// Whether the train can brake from squared speed `u` at a point to what `c` has at the next. Brakes
// always slow, so it takes no step where that is no less. At the last point there is nothing to brake to.
fn can_brake<L: Ledger>(
    rule: &Rule,
    c: &[u32],
    point: u32,
    u: u32,
    near: &mut Near,
    steps: &mut Steps<L>,
) -> bool
    requires points { length c.now ≡ cells_of rule.now + 1 }
    requires on_line { point ≤ cells_of rule.now }
    requires in_range { u ≤ most_of rule.now }
    ensures brakes { IsTrue result ↔ CanBrake (step_rule_of rule.now) c.now point u }
    ensures cost { steps.new ≤ steps.old + 1 }
{
    if point == rule.cells() {
        return true;
    }
    let next = c[point as usize + 1];
    if u <= next {
        return true;
    }
    rule.low_near(point, u, near, steps) <= i64::from(next)
}

// The least of the rules 4 to 6 that is broken at a point. A speed at the braking number takes no step
// where it is no faster than the one before and full effort loses none.
fn speed_fault<L: Ledger>(
    rule: &Rule,
    c: &[u32],
    e: &[u32],
    point: u32,
    near: &mut Near,
    steps: &mut Steps<L>,
) -> Option<u32>
    requires points { length c.now ≡ cells_of rule.now + 1 }
    requires few { length e.now ≤ length c.now }
    requires before { 1 ≤ point → point < length e.now
        → slice_index e.now (point - 1) ≤ most_of rule.now }
    ensures none { IfNone result (KeepsAll (BreaksSpeedRule (step_rule_of rule.now)
        c.now e.now point)) }
    ensures some { IfSome result (IsLeastBroken (BreaksSpeedRule (step_rule_of rule.now)
        c.now e.now point)) }
    ensures cost { steps.new ≤ steps.old + 1 }
{
    let i = point as usize;
    if i >= e.len() {
        return None;
    }
    let (speed, most) = (e[i], c[i]);
    if speed > most {
        return Some(4);
    }
    if point == 0 {
        return if speed < most { Some(5) } else { None };
    }
    let before = e[i - 1];
    if speed == most && speed <= before && rule.holds_speed(point - 1) {
        return None;
    }
    let up = rule.up_near(point - 1, before, near, steps);
    if i64::from(speed) > up {
        return Some(6);
    }
    (speed < most && i64::from(speed) < up).then_some(5)
}

// Whether the train stands at a point and at the one before.
fn stands_twice(e: &[u32], point: u32) -> bool
    ensures { IsTrue result ↔ ((point < length e.now) × StandsTwice e.now point) }
{
    let i = point as usize;
    0 < i && i < e.len() && e[i - 1] == 0 && e[i] == 0
}

// The point at which a verdict isn't shown, if there is one.
fn unshown_end<L: Ledger>(
    rule: &Rule,
    c: &[u32],
    e: &[u32],
    verdict: Reach,
    steps: &mut Steps<L>,
) -> Option<u32>
    requires points { length c.now ≡ cells_of rule.now + 1 }
    requires in_range { (i : ℕ) → i < length e.now → slice_index e.now i ≤ most_of rule.now }
    ensures none { IfNone result ((i : ℕ) → EndsElsewhere (step_rule_of rule.now)
        (length c.now) c.now e.now verdict i → ⊥) }
    ensures some { IfSome result (EndsElsewhere (step_rule_of rule.now)
        (length c.now) c.now e.now verdict) }
    ensures cost { steps.new ≤ steps.old + 1 }
{
    match verdict {
        Reach::Whole => {
            if e.len() == c.len() {
                None
            } else {
                Some(rule.cells())
            }
        }
        Reach::Stalled { k } => {
            if shows_stall(rule, c, e, k, steps) {
                None
            } else {
                Some(k)
            }
        }
    }
}

// Whether the speeds show that the train is stalled at point `k`.
fn shows_stall<L: Ledger>(rule: &Rule, c: &[u32], e: &[u32], k: u32, steps: &mut Steps<L>) -> bool
    requires points { length c.now ≡ cells_of rule.now + 1 }
    requires in_range { (i : ℕ) → i < length e.now → slice_index e.now i ≤ most_of rule.now }
    ensures shows { IsTrue result
        ↔ ShowsStall (step_rule_of rule.now) (length c.now) c.now e.now k }
    ensures cost { steps.new ≤ steps.old + 1 }
{
    let end = k as usize;
    if end == 0 || end >= c.len() || end != e.len() {
        return false;
    }
    let last = e[end - 1];
    let up = rule.up(k - 1, last, steps);
    up < 0 || last == 0 && up.min(i64::from(c[end])) == 0
}

#[cfg(test)]
mod tests;
