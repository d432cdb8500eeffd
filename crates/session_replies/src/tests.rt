//! Small sessions. What no clause says: that each line has its reply where memory is found.

ghost use Rattle.std.specs.Prelude.{◌≡◌, IfOk};
ghost use Rattle.session_replies.specs.Cases.{IsLawfulCase};

use crate::{Session, Summary, Tally, summarize};
use line_tables::read_line;
use plan_tables::read_plan;
use run_io::{MemSink, MemSource};
use session_lines::{Ending, answer_lines};
use std::alloc::Global;
use std::marker::Brand;
use std::process::Abort;
use std::sync::ledger::{Blank, Ledger};
use std::test::Fail;
use stock_tables::read_stock;
use time_brackets::Bracket;
use unit_rules::Steps;

// On the level full effort adds 20000 to its squared speed in each metre, and its brakes take 25920.
const TOY: &[u8] =
    b"mass = 259200\nrotating = 0\nlength = 10\ntop = 60\neffort = [[0, 20000], [60, 20000]]\nresistance = [0, 0, 0]\nbrake = [[0, 100], [60, 100]]\n";

// A case: a line, what is said, and the replies.
type Case = (&'static [u8], &'static [u8], &'static [u8]);

const TWO: &[u8] = b"line,Two,2\npoint,2,End\n";

const HILL: &[u8] = b"line,Hill,1000\ngradient,50,1000,100\npoint,113,Mid\npoint,114,High\n";

const CASES: [Case; 5] = [
    (
        TWO,
        b"time End\nput a 0 2 1\ntime End\ntake a\ntime End\n",
        b"time 10182291298 10182363300\nok whole\ntime 14400000000 14400000000\nok whole\ntime 10182291298 10182363300\n",
    ),
    (
        TWO,
        b"put a 0 2 1\nput a 0 1 1\ntake b\ntime Nowhere\nput b 2 1 1\nwhat\n",
        b"ok whole\nerror 4\nerror 5\nerror 7\nerror 3\nerror 2\n",
    ),
    (
        TWO,
        b"envelope\nput a 0 2 1\nenvelope\n",
        b"0 0\n1 20000\n2 0\nok whole\n0 0\n1 10000\n2 0\n",
    ),
    (
        TWO,
        b"put a 0 2 1\ncert\n",
        b"ok whole\n0 0\n10000 10000\n0 0\nwhole\n",
    ),
    (
        HILL,
        b"put slow 40 41 5\ntime High\ntimetable\nenvelope\ntake slow\n",
        b"ok stalled 114\nnone\nstalled 114\nstalled 114\nok stalled 256\n",
    ),
];

// A session of that train over a line, from a stand to a stand.
fn opened<L: Ledger>(
    rt: &impl Abort,
    alloc: Global,
    line: &[u8],
    steps: &mut Steps<L>,
) -> Result<Session, Fail>
    ensures { IfOk result IsLawfulCase }
{
    let line = read_line(alloc, line).expect(rt, "a line");
    let stock = read_stock(alloc, TOY).expect(rt, "a stock");
    let plan = read_plan(alloc, b"", &line).expect(rt, "a plan");
    Ok(Session::new(alloc, line, stock, plan, steps).expect(rt, "memory"))
}

// How a session over a line ends.
fn ending<L: Ledger>(
    rt: &impl Abort,
    alloc: Global,
    line: &[u8],
    input: &mut MemSource,
    out: &mut MemSink,
    blank: Blank,
) -> Result<Ending, Fail>
    requires name { blank.name ≡ L.name }
    requires parts { blank.parts ≡ L.parts }
    requires one { blank.parts ≡ 1 }
{
    let mut steps = Steps::<L>::new(blank);
    let mut session = opened(rt, alloc, line, &mut steps)?;
    Ok(answer_lines(&mut session, input, out, &mut steps))
}

// Whether what is said in a case has the replies.
fn replies_so(rt: &impl Abort, alloc: Global, case: &Case) -> Result<bool, Fail> {
    let (line, said, wanted) = *case;
    let said = Vec::from_slice(alloc, said)?;
    let mut input = MemSource::new(said, 9000, Vec::new(alloc));
    let mut out = MemSink::new(alloc, 9000, 9000, Vec::new(alloc)).expect(rt, "a sink");
    let ended = ending::<Brand>(rt, alloc, line, &mut input, &mut out, Blank::new(1))?;
    Ok(ended == Ending::Done && out.written() == wanted)
}

#[test]
fn small_sessions(rt: HostRuntime) -> Result<(), Fail> {
    for place in 0..CASES.len() {
        assert!(rt; replies_so(&rt, rt.alloc(), &CASES[place])?, "case {place}");
    }
    Ok(())
}

// The summary of what is said over a line.
fn summed<L: Ledger>(
    rt: &impl Abort,
    alloc: Global,
    line: &[u8],
    said: &[u8],
    blank: Blank,
) -> Result<Summary, Fail>
    requires name { blank.name ≡ L.name }
    requires parts { blank.parts ≡ L.parts }
    requires one { blank.parts ≡ 1 }
{
    let mut steps = Steps::<L>::new(blank);
    let mut session = opened(rt, alloc, line, &mut steps)?;
    Ok(summarize(&mut session, said, &mut steps))
}

// What is said over a line, and its summary.
type Sum = (&'static [u8], &'static [u8], Summary);

const SUMS: [Sum; 4] = [
    (
        TWO,
        b"",
        Summary {
            points: 3,
            commands: 0,
            tally: Tally {
                puts: 0,
                takes: 0,
                times: 0,
                stalls: 0,
            },
            last: Some(Bracket {
                lo: 10_182_291_298,
                hi: 10_182_363_300,
            }),
        },
    ),
    // The last command is an edit, and counts for the last arrival.
    (
        TWO,
        b"time End\nput a 0 2 1",
        Summary {
            points: 3,
            commands: 2,
            tally: Tally {
                puts: 1,
                takes: 0,
                times: 1,
                stalls: 0,
            },
            last: Some(Bracket {
                lo: 14_400_000_000,
                hi: 14_400_000_000,
            }),
        },
    ),
    // Lines that are refused are counted as commands alone, and other questions too.
    (
        TWO,
        b"put a 0 2 1\r\nput a 0 1 1\ntake b\ntake a\ntime Nowhere\ncert\n\nwhat\n",
        Summary {
            points: 3,
            commands: 8,
            tally: Tally {
                puts: 1,
                takes: 1,
                times: 0,
                stalls: 0,
            },
            last: Some(Bracket {
                lo: 10_182_291_298,
                hi: 10_182_363_300,
            }),
        },
    ),
    // A stall: a time that isn't known is counted as one that was asked for.
    (
        HILL,
        b"put slow 40 41 5\ntime High\ntake slow\ntime Mid\ntake slow\n",
        Summary {
            points: 1001,
            commands: 5,
            tally: Tally {
                puts: 1,
                takes: 1,
                times: 2,
                stalls: 2,
            },
            last: None,
        },
    ),
];

// Whether what is said in a case has the summary.
fn sums_so(rt: &impl Abort, alloc: Global, case: &Sum) -> Result<bool, Fail> {
    let (line, said, wanted) = *case;
    let sum = summed::<Brand>(rt, alloc, line, said, Blank::new(1))?;
    Ok(sum == wanted)
}

#[test]
fn summaries(rt: HostRuntime) -> Result<(), Fail> {
    for place in 0..SUMS.len() {
        assert!(rt; sums_so(&rt, rt.alloc(), &SUMS[place])?, "case {place}");
    }
    Ok(())
}
