//! What the definitions mean in numbers, for a toy train of 259200 kg with brakes of 25920.

ghost use Rattle.std.specs.Prelude.{◌≡◌, ◌^◌, ◌<◌, ◌≤◌, pos, neg_ℤ, ◌≤ℤ◌, IfOk};
ghost use Rattle.run_rules.specs.StepRules.{IsPull};
ghost use Rattle.table_laws.proofs.ToyFacts.{toy_rows};
ghost use Rattle.step_rule.specs.Motion.{cells_of, kmh_of};

use super::*;
use std::alloc::Global;
use std::marker::Brand;
use std::process::Abort;
use std::sync::ledger::Blank;
use std::test::Fail;

const FLAT: i64 = 5184000000;

// Pulls on a hill of 100 tenths and then of 200 tenths, with 1 to 10 metres of the train's ten on it,
// and what a metre adds to the squared speed there.
const HILLS: [(i64, i32); 20] = [
    (659081319, 17457),
    (1318162637, 14914),
    (1977243956, 12371),
    (2636325274, 9828),
    (3295406592, 7286),
    (3954487911, 4743),
    (4613569229, 2200),
    (5272650548, -343),
    (5931731866, -2885),
    (6590813184, -5428),
    (1318162637, 14914),
    (2636325274, 9828),
    (3954487911, 4743),
    (5272650548, -343),
    (6590813184, -5428),
    (7908975821, -10514),
    (9227138458, -15599),
    (10545301095, -20685),
    (11863463732, -25770),
    (13181626368, -30856),
];

// The table with one value at 0 km/h and another at 1 to 60 km/h.
fn table(rt: &impl Abort, alloc: Global, first: i64, rest: i64, law: Law) -> Result<Bands, Fail>
    requires first_least { pos 0 ≤ℤ first }
    requires first_most { first ≤ℤ pos (10 ^ 13) }
    requires rest_least { pos 0 ≤ℤ rest }
    requires rest_most { rest ≤ℤ pos (10 ^ 13) }
    ensures { IfOk result (λ bands. bands ≡ record { rows = toy_rows first rest; law = law }) }
{
    let mut rows = vec![in alloc; rest; 61]?;
    rows[0] = first;
    Ok(Bands::new(rows, law).expect(rt, "lawful"))
}

// The rule of the toy train with that push, on a line of two cells with the same pull.
fn toy(rt: &impl Abort, alloc: Global, first: i64, rest: i64, pull: i64) -> Result<Rule, Fail>
    requires first_least { pos 0 ≤ℤ first }
    requires first_most { first ≤ℤ pos (10 ^ 13) }
    requires rest_least { pos 0 ≤ℤ rest }
    requires rest_most { rest ≤ℤ pos (10 ^ 13) }
    requires pull { IsPull pull }
    ensures { IfOk result (λ rule. kmh_of rule ≡ 60) }
{
    let push = table(rt, alloc, first, rest, Law::Drop { per: 259200 })?;
    let brake = table(rt, alloc, 25920, 25920, Law::Climb)?;
    Ok(Rule::new(push, brake, 259200, vec![in alloc; pull; 2]?))
}

// The greatest and the least squared speed after the first cell, from `u`.
fn bounds<L: Ledger>(rule: &Rule, u: u32, blank: Blank) -> (i64, i64)
    requires name { blank.name ≡ L.name }
    requires parts { blank.parts ≡ L.parts }
    requires one { blank.parts ≡ 1 }
    requires top { kmh_of rule.now ≡ 60 }
    requires in_range { u ≤ 36000000 }
{
    let mut steps = Steps::<L>::new(blank);
    let _cells = rule.cells();
    (rule.up(0, u, &mut steps), rule.low(0, u, &mut steps))
}

// Whether full effort adds `increment` to the squared speed in the first cell, from a standstill to the
// top speed.
fn adds(rule: &Rule, increment: i64) -> bool
    requires top { kmh_of rule.now ≡ 60 }
{
    let (first, _low) = bounds::<Brand>(rule, 0, Blank::new(1));
    let (slow, _low) = bounds::<Brand>(rule, 5000, Blank::new(1));
    let (fast, _low) = bounds::<Brand>(rule, 36000000, Blank::new(1));
    first == increment
        && slow.checked_sub(5000) == Some(increment)
        && fast.checked_sub(36000000) == Some(increment)
}

// The greatest squared speed up to `most` before the first cell from which the train can stand after it.
fn back<L: Ledger>(rule: &Rule, most: u32, blank: Blank) -> u32
    requires name { blank.name ≡ L.name }
    requires parts { blank.parts ≡ L.parts }
    requires one { blank.parts ≡ 1 }
    requires top { kmh_of rule.now ≡ 60 }
    requires in_range { most ≤ 36000000 }
{
    let mut steps = Steps::<L>::new(blank);
    let _cells = rule.cells();
    rule.back(0, 0, most, &mut steps)
}

// A train of that mass with a top of 2 km/h, whose brakes weaken from 1 km/h on. It is on a level
// cell and then on a hill, where full effort takes 30000.
fn hilly(rt: &impl Abort, alloc: Global) -> Result<Rule, Fail>
    ensures top { IfOk result (λ rule. kmh_of rule ≡ 2) }
    ensures cells { IfOk result (λ rule. cells_of rule ≡ 2) }
{
    let effort = Law::Drop { per: 259200 };
    let push = Bands::new(vec![in alloc; FLAT, FLAT, FLAT]?, effort).expect(rt, "lawful");
    let brake = Bands::new(vec![in alloc; 25920, 25920, 12960]?, Law::Climb).expect(rt, "lawful");
    Ok(Rule::new(push, brake, 259200, vec![in alloc; 0, 12960000000]?))
}

// The greatest squared speed before a cell from which that train can stand after it.
fn stopped<L: Ledger>(rule: &Rule, cell: u32, near: u32, blank: Blank) -> u32
    requires name { blank.name ≡ L.name }
    requires parts { blank.parts ≡ L.parts }
    requires one { blank.parts ≡ 1 }
    requires top { kmh_of rule.now ≡ 2 }
    requires cell { cell < cells_of rule.now }
{
    let mut near = near;
    rule.back_near(cell, 0, 40000, &mut near, &mut Steps::<L>::new(blank))
}

#[test]
fn full_effort_on_hills(rt: HostRuntime) -> Result<(), Fail> {
    for i in 0..HILLS.len() {
        let (pull, increment) = HILLS[i];
        assert!(rt; pull.unsigned_abs() < 100_000_000_000);
        let rule = toy(&rt, rt.alloc(), FLAT, FLAT, pull)?;
        assert!(rt; adds(&rule, i64::from(increment)));
    }
    Ok(())
}

#[test]
fn brakes_on_the_level(rt: HostRuntime) -> Result<(), Fail> {
    let rule = toy(&rt, rt.alloc(), FLAT, FLAT, 0)?;
    assert!(rt; rule.top() == 60);
    assert!(rt; rule.cells() == 2);
    assert!(rt; back::<Brand>(&rule, 36000000, Blank::new(1)) == 25920);
    assert!(rt; back::<Brand>(&rule, 10000, Blank::new(1)) == 10000);
    Ok(())
}

#[test]
fn effort_at_a_standstill_alone(rt: HostRuntime) -> Result<(), Fail> {
    let rule = toy(&rt, rt.alloc(), 2592000000, 0, 0)?;
    assert!(rt; bounds::<Brand>(&rule, 0, Blank::new(1)) == (10000, -25920));
    assert!(rt; bounds::<Brand>(&rule, 10000, Blank::new(1)) == (10000, -15920));
    Ok(())
}

#[test]
fn brakes_on_a_gentle_cell_and_on_a_steep_one(rt: HostRuntime) -> Result<(), Fail> {
    let rule = hilly(&rt, rt.alloc())?;
    assert!(rt; rule.holds_speed(0) && !rule.holds_speed(1));
    assert!(rt; stopped::<Brand>(&rule, 0, 0, Blank::new(1)) == 21117);
    assert!(rt; stopped::<Brand>(&rule, 0, 7, Blank::new(1)) == 21117);
    assert!(rt; stopped::<Brand>(&rule, 1, 1, Blank::new(1)) == 30000);
    Ok(())
}
