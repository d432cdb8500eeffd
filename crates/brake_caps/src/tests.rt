//! What the definitions mean in numbers, for a toy train of 259200 kg whose brakes take 25920 from its
//! squared speed at each metre.

ghost use Rattle.std.specs.Prelude.{◌≡◌, ◌^◌, pos, ◌≤ℤ◌, length, replicate, IfOk};
ghost use Rattle.run_rules.specs.StepRules.{IsPull};
ghost use Rattle.step_rule.specs.Motion.{cells_of, kmh_of};

use super::*;
use std::alloc::Global;
use std::marker::Brand;
use std::process::Abort;
use std::sync::ledger::Blank;
use std::test::Fail;
use table_laws::{Bands, Law};
use unit_rules::{Bound, Memory};

const TOP: u32 = 36000000;

// Braking lists of a level line of ten metres, by the greatest squared speed at its two ends.
const LISTS: [(u32, u32, [u32; 11]); 4] = [
    (
        0,
        0,
        [
            0, 233280, 207360, 181440, 155520, 129600, 103680, 77760, 51840, 25920, 0,
        ],
    ),
    (
        TOP,
        1,
        [
            259201, 233281, 207361, 181441, 155521, 129601, 103681, 77761, 51841, 25921, 1,
        ],
    ),
    (
        0,
        TOP,
        [0, TOP, TOP, TOP, TOP, TOP, TOP, TOP, TOP, TOP, TOP],
    ),
    (TOP, TOP, [TOP; 11]),
];

// The list between two stands with a hill in cell 5 on which full effort takes 30000.
const HILLY: [u32; 11] = [
    0, 237360, 211440, 185520, 159600, 133680, 103680, 77760, 51840, 25920, 0,
];

// The table with one value at each speed up to 60 km/h.
fn level(rt: &impl Abort, alloc: Global, value: i64, law: Law) -> Result<Bands, Fail>
    requires least { pos 0 ≤ℤ value }
    requires most { value ≤ℤ pos (10 ^ 13) }
    ensures { IfOk result (λ bands. bands ≡ record { rows = replicate 61 value; law = law }) }
{
    Ok(Bands::new(vec![in alloc; value; 61]?, law).expect(rt, "lawful"))
}

// The rule of the toy train on a line of ten cells that is level but for a hill in cell 5.
fn toy(rt: &impl Abort, alloc: Global, hill: i64) -> Result<Rule, Fail>
    requires { IsPull hill }
    ensures top { IfOk result (λ rule. kmh_of rule ≡ 60) }
    ensures cells { IfOk result (λ rule. cells_of rule ≡ 10) }
{
    let push = level(rt, alloc, 5184000000, Law::Drop { per: 259200 })?;
    let brake = level(rt, alloc, 25920, Law::Climb)?;
    Ok(Rule::new(
        push,
        brake,
        259200,
        vec![in alloc; 0, 0, 0, 0, 0, hill, 0, 0, 0, 0]?,
    ))
}

// The limits of that line for a train of ten metres, with bounds at its two ends alone.
fn bounded(alloc: Global, first: u32, last: u32) -> Result<Limits, Memory>
    ensures top { IfOk result (λ limits. limits.top ≡ 60) }
    ensures length { IfOk result (λ limits. limits.length ≡ 10) }
{
    let ends = [Bound { at: 0, most: first }, Bound { at: 10, most: last }];
    Limits::new(alloc, 10, 10, 60, &[], &ends)
}

// Walks back over the whole line.
fn brake<L: Ledger>(rule: &Rule, limits: &Limits, c: &mut [u32], blank: Blank) -> u32
    requires name { blank.name ≡ L.name }
    requires parts { blank.parts ≡ L.parts }
    requires one { blank.parts ≡ 1 }
    requires cells { cells_of rule.now ≡ 10 }
    requires same_length { limits.now.length ≡ 10 }
    requires kmh { kmh_of rule.now ≡ 60 }
    requires same_top { limits.now.top ≡ 60 }
    requires points { length c.old ≡ 11 }
{
    let mut steps = Steps::<L>::new(blank);
    walk_back(rule, limits, 0, 10, c, &mut steps)
}

// Whether the walk back between bounds at the two ends makes the list.
fn makes(rt: &impl Abort, alloc: Global, rule: &Rule, row: (u32, u32, [u32; 11])) -> bool
    requires cells { cells_of rule.now ≡ 10 }
    requires kmh { kmh_of rule.now ≡ 60 }
{
    let (first, last, list) = row;
    let limits = bounded(alloc, first, last).expect(rt, "memory");
    let mut c = [7; 11];
    let lowest = brake::<Brand>(rule, &limits, &mut c, Blank::new(1));
    lowest == 0 && c == list
}

#[test]
fn braking_lists_of_the_toy_train(rt: HostRuntime) -> Result<(), Fail> {
    let rule = toy(&rt, rt.alloc(), 0)?;
    for i in 0..LISTS.len() {
        assert!(rt; makes(&rt, rt.alloc(), &rule, LISTS[i]), "list {i}");
    }
    Ok(())
}

#[test]
fn braking_list_over_a_hill_that_slows_more_than_the_brakes(rt: HostRuntime) -> Result<(), Fail> {
    let rule = toy(&rt, rt.alloc(), 12960000000)?;
    assert!(rt; makes(&rt, rt.alloc(), &rule, (0, 0, HILLY)));
    Ok(())
}
