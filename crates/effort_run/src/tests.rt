//! What the definitions mean in numbers, for a toy train of 259200 kg on a line of ten cells: full
//! effort adds 20000 to the squared speed in each level cell, and the brakes take 25920.

ghost use Rattle.std.specs.Prelude.{◌≡◌, ◌+◌, ◌^◌, ◌<◌, ◌≤◌, ℕ, pos, ◌≤ℤ◌, length, replicate, slice_index, IfOk};
ghost use Rattle.std.specs.Bool.{OnTrue};
ghost use Rattle.run_rules.specs.StepRules.{IsPull};
ghost use Rattle.step_rule.specs.Motion.{cells_of, kmh_of};

use super::*;
use std::alloc::Global;
use std::marker::Brand;
use std::process::Abort;
use std::sync::ledger::Blank;
use std::test::Fail;
use table_laws::{Bands, Law};

// With no stop on the way, and with stops at points 5 and 6.
const FREE: [u32; 11] = [
    0, 233280, 207360, 181440, 155520, 129600, 103680, 77760, 51840, 25920, 0,
];

const STOPS: [u32; 11] = [0, 103680, 77760, 51840, 25920, 0, 0, 77760, 51840, 25920, 0];

// The run with no stop on the way.
const RUN: [u32; 11] = [
    0, 20000, 40000, 60000, 80000, 100000, 103680, 77760, 51840, 25920, 0,
];

// The same with a hill in cell 6 on which full effort takes 30000.
const HILLY_RUN: [u32; 11] = [
    0, 20000, 40000, 60000, 80000, 100000, 103680, 73680, 51840, 25920, 0,
];

// The table with one value at each speed up to 60 km/h.
fn level(rt: &impl Abort, alloc: Global, value: i64, law: Law) -> Result<Bands, Fail>
    requires least { pos 0 ≤ℤ value }
    requires most { value ≤ℤ pos (10 ^ 13) }
    ensures { IfOk result (λ bands. bands ≡ record { rows = replicate 61 value; law = law }) }
{
    Ok(Bands::new(vec![in alloc; value; 61]?, law).expect(rt, "lawful"))
}

// The train on a line that is level but for a hill in cell 6.
fn toy(rt: &impl Abort, alloc: Global, hill: i64) -> Result<Rule, Fail>
    requires { IsPull hill }
    ensures top { IfOk result (λ rule. kmh_of rule ≡ 60) }
    ensures cells { IfOk result (λ rule. cells_of rule ≡ 10) }
    ensures brakes { IfOk result (λ rule. rule.brake.rows ≡ replicate 61 (pos 25920)) }
{
    let push = level(rt, alloc, 5184000000, Law::Drop { per: 259200 })?;
    let brake = level(rt, alloc, 25920, Law::Climb)?;
    Ok(Rule::new(
        push,
        brake,
        259200,
        vec![in alloc; 0, 0, 0, 0, 0, 0, hill, 0, 0, 0]?,
    ))
}

// Whether the brakes get from each cap to the next, and no cap is past the top speed.
fn brakes(c: &[u32]) -> bool
    requires { length c.now ≡ 11 }
    ensures braked { OnTrue result ((i : ℕ) → i + 1 < length c.now
        → slice_index c.now i ≤ slice_index c.now (i + 1) + 25920) }
    ensures in_range { OnTrue result ((i : ℕ) → i < length c.now → slice_index c.now i ≤ 36000000) }
{
    for i in 0..10 {
        if c[i] > 36_000_000 || c[i] > c[i + 1].saturating_add(25920) {
            return false;
        }
    }
    c[10] <= 36_000_000
}

// A first walk over the whole line.
fn walk_over<L: Ledger>(
    rt: &impl Abort,
    rule: &Rule,
    c: &[u32],
    e: &mut [u32],
    blank: Blank,
) -> Reach
    requires name { blank.name ≡ L.name }
    requires parts { blank.parts ≡ L.parts }
    requires one { blank.parts ≡ 1 }
    requires top { kmh_of rule.now ≡ 60 }
    requires cells { cells_of rule.now ≡ 10 }
    requires brakes { rule.now.brake.rows ≡ replicate 61 (pos 25920) }
    requires points { length c.now ≡ 11 }
    requires same_points { length e.old ≡ 11 }
{
    assert!(rt; brakes(c));
    let mut steps = Steps::<L>::new(blank);
    walk_on(rule, c, 0, 10, e, 0, &mut steps).reach
}

#[test]
fn runs_with_no_stop_on_the_way(rt: HostRuntime) -> Result<(), Fail> {
    let rule = toy(&rt, rt.alloc(), 0)?;
    let mut e = [0; 11];
    let free = walk_over::<Brand>(&rt, &rule, &FREE, &mut e, Blank::new(1));
    assert!(rt; free == Reach::Whole);
    assert!(rt; e == RUN);
    Ok(())
}

#[test]
fn runs_over_a_hill_that_slows_more_than_the_brakes(rt: HostRuntime) -> Result<(), Fail> {
    let rule = toy(&rt, rt.alloc(), 12960000000)?;
    let mut e = [0; 11];
    let free = walk_over::<Brand>(&rt, &rule, &FREE, &mut e, Blank::new(1));
    assert!(rt; free == Reach::Whole);
    assert!(rt; e == HILLY_RUN);
    Ok(())
}

#[test]
fn stalls_between_two_stops(rt: HostRuntime) -> Result<(), Fail> {
    let rule = toy(&rt, rt.alloc(), 0)?;
    let mut e = [0; 11];
    let stops = walk_over::<Brand>(&rt, &rule, &STOPS, &mut e, Blank::new(1));
    assert!(rt; stops == Reach::Stalled { k: 6 });
    assert!(rt; e.starts_with(&[0, 20000, 40000, 51840, 25920, 0]));
    Ok(())
}
