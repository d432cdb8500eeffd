//! What the rules mean in numbers, for a toy train of 259200 kg: full effort adds 20000 to the squared
//! speed in each level cell, and the brakes take 25920.

ghost use Rattle.std.specs.Prelude.{◌≡◌, ℕ, ◌+◌, ◌^◌, ◌<◌, ◌≤◌, All, pos, ◌≤ℤ◌, length, replicate, vec_len, IfOk};
ghost use Rattle.run_rules.specs.StepRules.{IsPull};
ghost use Rattle.step_rule.specs.Motion.{cells_of, kmh_of};

use super::*;
use std::alloc::Global;
use std::marker::Brand;
use std::process::Abort;
use std::sync::ledger::Blank;
use std::test::Fail;
use table_laws::{Bands, Law};
use unit_rules::Reach::{Stalled, Whole};
use unit_rules::{Bound, Memory};

const GREATEST: u32 = 4294967295;

const UNTOLD: Reach = Stalled { k: GREATEST };

// What is claimed, what is known of the run, and what the checker answers: the rule and the point, or 0
// and 0 where it accepts.
type Row = ([u32; 3], [u32; 3], usize, Reach, (u32, u32));

// Over two level metres from a stand to a stand.
const TWO: [Row; 14] = [
    ([0, 25920, 0], [0, 20000, 0], 3, Whole, (0, 0)),
    ([1, 25920, 0], [0, 20000, 0], 3, Whole, (2, 0)),
    ([0, GREATEST, 0], [0, 20000, 0], 3, Whole, (2, 1)),
    ([0, 25919, 0], [0, 20000, 0], 3, Whole, (3, 1)),
    ([0, 25921, 0], [0, 20000, 0], 3, Whole, (7, 1)),
    ([0, 25920, 0], [0, 25921, 0], 3, Whole, (4, 1)),
    ([0, 25920, 0], [0, GREATEST, 0], 3, Whole, (4, 1)),
    ([0, 25920, 0], [0, 19999, 0], 3, Whole, (5, 1)),
    ([0, 25920, 0], [0, 20001, 0], 3, Whole, (6, 1)),
    ([0, 25920, 0], [0, 0, 0], 3, Whole, (5, 1)),
    ([0, 25920, 0], [0, 20000, 0], 2, Whole, (9, 2)),
    ([0, 25920, 0], [0, 20000, 0], 2, Stalled { k: 2 }, (9, 2)),
    ([0, 25920, 0], [0, 20000, 0], 3, Stalled { k: 0 }, (9, 0)),
    ([0, 25920, 0], [0, 20000, 0], 3, UNTOLD, (9, GREATEST)),
];

// The braking list and the run over ten level metres.
const BRAKES: [u32; 11] = [
    0, 233280, 207360, 181440, 155520, 129600, 103680, 77760, 51840, 25920, 0,
];

const RUN: [u32; 11] = [
    0, 20000, 40000, 60000, 80000, 100000, 103680, 77760, 51840, 25920, 0,
];

// The same with stops at points 5 and 6, between which the train can't move.
const STOPS: [u32; 11] = [0, 103680, 77760, 51840, 25920, 0, 0, 77760, 51840, 25920, 0];

const STALLED: [u32; 7] = [0, 20000, 40000, 51840, 25920, 0, 0];

// The table with one value at each speed up to 60 km/h.
fn level(rt: &impl Abort, alloc: Global, value: i64, law: Law) -> Result<Bands, Fail>
    requires least { pos 0 ≤ℤ value }
    requires most { value ≤ℤ pos (10 ^ 13) }
    ensures { IfOk result (λ bands. bands ≡ record { rows = replicate 61 value; law = law }) }
{
    Ok(Bands::new(vec![in alloc; value; 61]?, law).expect(rt, "lawful"))
}

// The rule of the toy train on a line with these pulls.
fn toy(rt: &impl Abort, alloc: Global, pulls: Vec<i64>) -> Result<Rule, Fail>
    requires some { 2 ≤ vec_len pulls }
    requires few { vec_len pulls ≤ 10 }
    requires small { All IsPull pulls.items }
    ensures top { IfOk result (λ rule. kmh_of rule ≡ 60) }
    ensures cells { IfOk result (λ rule. cells_of rule ≡ vec_len pulls) }
{
    let push = level(rt, alloc, 5184000000, Law::Drop { per: 259200 })?;
    let brake = level(rt, alloc, 25920, Law::Climb)?;
    Ok(Rule::new(push, brake, 259200, pulls))
}

// The limits of a line of `length` metres between two stands, with a stop at two points.
fn stopping(alloc: Global, length: u32, first: u32, second: u32) -> Result<Limits, Memory>
    requires short { length ≤ 10 }
    requires long { 2 ≤ length }
    requires first { first ≤ length }
    requires second { second ≤ length }
    ensures top { IfOk result (λ limits. limits.top ≡ 60) }
    ensures length { IfOk result (λ limits. limits.length ≡ length) }
{
    let stops = [
        Bound { at: 0, most: 0 },
        Bound {
            at: length,
            most: 0,
        },
        Bound { at: first, most: 0 },
        Bound {
            at: second,
            most: 0,
        },
    ];
    Limits::new(alloc, length, 10, 60, &[], &stops)
}

// What the checker answers: the rule and the point, or 0 and 0 where it accepts.
fn answer<L: Ledger>(rule: &Rule, limits: &Limits, cert: &Cert, blank: Blank) -> (u32, u32)
    requires name { blank.name ≡ L.name }
    requires parts { blank.parts ≡ L.parts }
    requires one { blank.parts ≡ 1 }
    requires same_length { limits.now.length ≡ cells_of rule.now }
    requires same_top { limits.now.top ≡ kmh_of rule.now }
{
    let mut steps = Steps::<L>::new(blank);
    match check(rule, limits, cert, &mut steps) {
        Ok(_) => (0, 0),
        Err(fault) => (fault.rule, fault.point),
    }
}

// The answer to the certificate with these numbers.
fn answer_to(
    rt: &impl Abort,
    alloc: Global,
    case: (&Rule, &Limits),
    c: &[u32],
    e: &[u32],
    verdict: Reach,
) -> (u32, u32)
    requires same_length { case.1.now.length ≡ cells_of case.0.now }
    requires same_top { case.1.now.top ≡ kmh_of case.0.now }
{
    let c = Vec::from_slice(alloc, c).expect(rt, "memory");
    let e = Vec::from_slice(alloc, e).expect(rt, "memory");
    answer::<Brand>(case.0, case.1, &Cert { c, e, verdict }, Blank::new(1))
}

// Whether the checker answers a row as it says.
fn holds(rt: &impl Abort, alloc: Global, case: (&Rule, &Limits), row: Row) -> bool
    requires same_length { case.1.now.length ≡ cells_of case.0.now }
    requires same_top { case.1.now.top ≡ kmh_of case.0.now }
{
    let (c, e, known, verdict, wanted) = row;
    answer_to(rt, alloc, case, &c, &e[..known.min(3)], verdict) == wanted
}

#[test]
fn certificates_over_two_metres(rt: HostRuntime) -> Result<(), Fail> {
    let alloc = rt.alloc();
    let rule = toy(&rt, alloc, vec![in alloc; 0; 2]?)?;
    let limits = stopping(alloc, 2, 0, 0).expect(&rt, "memory");
    for i in 0..TWO.len() {
        assert!(rt; holds(&rt, alloc, (&rule, &limits), TWO[i]), "row {i}");
    }
    Ok(())
}

#[test]
fn other_numbers_of_points(rt: HostRuntime) -> Result<(), Fail> {
    let alloc = rt.alloc();
    let rule = toy(&rt, alloc, vec![in alloc; 0; 2]?)?;
    let limits = stopping(alloc, 2, 0, 0).expect(&rt, "memory");
    let case = (&rule, &limits);
    let more = [0, 25920, 0, 0];
    assert!(rt; answer_to(&rt, alloc, case, &[], &[], Whole) == (1, 0));
    assert!(rt; answer_to(&rt, alloc, case, &more, &[0, 20000, 0, 0], Whole) == (1, 0));
    assert!(rt; answer_to(&rt, alloc, case, &more[..3], &[0, 20000, 0, 0], Whole) == (1, 0));
    Ok(())
}

#[test]
fn certificates_over_ten_metres(rt: HostRuntime) -> Result<(), Fail> {
    let alloc = rt.alloc();
    let rule = toy(&rt, alloc, vec![in alloc; 0; 10]?)?;
    let limits = stopping(alloc, 10, 0, 0).expect(&rt, "memory");
    let case = (&rule, &limits);
    assert!(rt; answer_to(&rt, alloc, case, &BRAKES, &RUN, Whole) == (0, 0));
    assert!(rt; answer_to(&rt, alloc, case, &BRAKES[..10], &RUN[..10], Whole) == (1, 0));
    assert!(rt; answer_to(&rt, alloc, case, &BRAKES, &RUN, Stalled { k: 3 }) == (9, 3));
    Ok(())
}

// The answer over ten metres with other numbers at points 6 of the braking list and 5 of the run.
fn answer_to_change(
    rt: &impl Abort,
    alloc: Global,
    case: (&Rule, &Limits),
    braking: u32,
    speed: u32,
) -> (u32, u32)
    requires same_length { case.1.now.length ≡ cells_of case.0.now }
    requires same_top { case.1.now.top ≡ kmh_of case.0.now }
{
    let (mut c, mut e) = (BRAKES, RUN);
    c[6] = braking;
    e[5] = speed;
    answer_to(rt, alloc, case, &c, &e, Whole)
}

#[test]
fn changed_numbers_over_ten_metres(rt: HostRuntime) -> Result<(), Fail> {
    let alloc = rt.alloc();
    let rule = toy(&rt, alloc, vec![in alloc; 0; 10]?)?;
    let limits = stopping(alloc, 10, 0, 0).expect(&rt, "memory");
    let case = (&rule, &limits);
    assert!(rt; answer_to_change(&rt, alloc, case, 103680, 99999) == (5, 5));
    assert!(rt; answer_to_change(&rt, alloc, case, 103681, 100000) == (3, 5));
    assert!(rt; answer_to_change(&rt, alloc, case, 103679, 100000) == (7, 5));
    Ok(())
}

#[test]
fn stalls_between_two_stops(rt: HostRuntime) -> Result<(), Fail> {
    let alloc = rt.alloc();
    let rule = toy(&rt, alloc, vec![in alloc; 0; 10]?)?;
    let limits = stopping(alloc, 10, 5, 6).expect(&rt, "memory");
    let case = (&rule, &limits);
    let stalled = Stalled { k: 6 };
    assert!(rt; answer_to(&rt, alloc, case, &STOPS, &STALLED[..6], stalled) == (0, 0));
    assert!(rt; answer_to(&rt, alloc, case, &STOPS, &STALLED, stalled) == (8, 6));
    Ok(())
}

// The answer to a stall at point 2 of three metres, of which the second has this pull.
fn answer_on_hill(rt: &impl Abort, alloc: Global, pull: i64) -> Result<(u32, u32), Fail>
    requires { IsPull pull }
{
    let rule = toy(rt, alloc, vec![in alloc; 0, pull, 0]?)?;
    let limits = stopping(alloc, 3, 0, 3).expect(rt, "memory");
    let case = (&rule, &limits);
    let (c, e) = ([0, 51840, 25920, 0], [0, 20000]);
    Ok(answer_to(rt, alloc, case, &c, &e, Stalled { k: 2 }))
}

// A hill that takes a train at 20000 to -1 stalls it, and one that takes it to 0 doesn't.
#[test]
fn stalls_where_full_effort_is_too_weak(rt: HostRuntime) -> Result<(), Fail> {
    assert!(rt; answer_on_hill(&rt, rt.alloc(), 10368000001)? == (0, 0));
    assert!(rt; answer_on_hill(&rt, rt.alloc(), 10368000000)? == (9, 2));
    Ok(())
}
