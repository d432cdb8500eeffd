//! That small plan files are read, and bound the speed of a train, where memory is found.

use super::*;
use line_tables::read_line;
use std::test::Fail;
use unit_rules::Bound;

#[test]
fn plans_are_read(rt: HostRuntime) -> Result<(), Fail> {
    let alloc = rt.alloc();
    let text = b"line,Ten,10\npoint,5,A\npoint,6,B\npoint,10,C\n";
    let line = read_line(alloc, text).expect(&rt, "a line");
    let text = b"enter,1\nstop,A,60\npass,B\nstop,C,0\nallow,2,10,per100km,3\n";
    let plan = read_plan(alloc, text, &line).expect(&rt, "a plan");
    assert!(rt; plan.calls().len() == 3 && plan.sections().len() == 1);
    let bounds = bounds(alloc, &plan, line.length()).expect(&rt, "memory");
    let stands = [
        Bound {
            at: 0,
            most: 10_000,
        },
        Bound { at: 10, most: 0 },
        Bound { at: 5, most: 0 },
        Bound { at: 10, most: 0 },
    ];
    assert!(rt; bounds.as_slice() == stands.as_slice());
    let refused = read_plan(alloc, b"pass,B\npass,A\n", &line);
    assert!(rt; matches!(refused, Err(PlanFault::Bad { place: 2, rule: 5 })));
    Ok(())
}
