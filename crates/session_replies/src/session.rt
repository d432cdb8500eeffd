//! A session over an envelope.

ghost use Rattle.std.specs.Prelude.{◌≡◌, ◌≤◌, ◌+◌, ◌*◌, [], IfOk};
ghost use Rattle.plan_tables.specs.Plan.{PlanLiesOn};
ghost use Rattle.session_lines.specs.Sessions.{Responds};
ghost use Rattle.time_brackets.specs.Sums.{block_cells};
ghost use Rattle.unit_rules.specs.Limits.{longest_line};
ghost use Rattle.session_replies.specs.Asked.{Asked, asked};
ghost use Rattle.session_replies.specs.Cases.{CaseView, IsLawfulCase, case_of};
ghost use Rattle.session_replies.specs.Replies.{Arrives, ComesTo, talk};
ghost use Rattle.session_replies.specs.TalkLaws.{talk_lawful};

use crate::answers::Answer;
use crate::commands::answer_line;
use crate::replies::write_answer;
use incr_envelope::Envelope;
use line_tables::Line;
use plan_tables::Plan;
use restrictions::MOST_IN_FORCE;
use run_io::Sink;
use session_lines::{Responder, Stop};
use std::alloc::Global;
use std::marker::Model;
use std::sync::ledger::Ledger;
use stock_tables::Stock;
use time_brackets::Bracket;
use unit_rules::{Memory, Steps};

/// A train on a line by a plan, under the restrictions in force, with its fastest run; it answers
/// lines. There is room for as many restrictions as may be in force, and for one more while an edit is
/// made, so that an edit wants no memory.
#[derive(Drop)]
pub struct Session {
    alloc: Global,
    envelope: Envelope,
}

impl Model for Session {
    ghost use Rattle.session_replies.specs.Cases.{CaseView, case_in};
    ghost use Rattle.session_replies.specs.Room.{HasRoom};

    ghost Value = { CaseView };

    ghost view = { λ s. case_in s.envelope };

    ghost invariant = { λ s. HasRoom s.envelope };
}

impl Session {
    /// A session with nothing in force. It takes all memory that it needs but for timetables.
    pub fn new<L: Ledger>(
        alloc: Global,
        line: Line,
        stock: Stock,
        plan: Plan,
        steps: &mut Steps<L>,
    ) -> Result<Session, Memory>
        requires { PlanLiesOn line.length plan }
        ensures case { IfOk result (λ s. s ≡ case_of line stock plan []) }
        ensures law { IfOk result IsLawfulCase }
        ensures cost { steps.new ≤ steps.old + 35 * (line.length + 1) }
    {
        // What a line and a stock keep is told by their calls.
        let (_length, _top) = (line.length(), stock.top());
        let mut envelope = Envelope::new(alloc, line, stock, plan, steps)?;
        envelope.reserve(MOST_IN_FORCE + 1)?;
        Ok(Session { alloc, envelope })
    }

    /// Does what a line asks for, but for what would be written.
    pub fn answer<L: Ledger>(&mut self, line: &[u8], steps: &mut Steps<L>) -> Answer
        requires { IsLawfulCase self.old }
        ensures { ComesTo self.old self.new (asked self.old line.now) result
            steps.old steps.new }
    {
        answer_line(&mut self.envelope, line, steps)
    }

    /// The number of the line's last point, which is its length in metres.
    pub fn last_point(&self) -> u32
        ensures last { result ≡ self.now.line.length }
        ensures short { result ≤ longest_line }
    {
        self.envelope.line().length()
    }

    /// When the train comes to a point, in nanoseconds, unless it is at or past its stall.
    pub fn arrival<L: Ledger>(&self, point: u32, steps: &mut Steps<L>) -> Option<Bracket>
        requires lawful { IsLawfulCase self.now }
        requires on_line { point ≤ self.now.line.length }
        ensures arrival { Arrives self.now point result }
        ensures cost { steps.new ≤ steps.old + block_cells }
    {
        self.envelope.bracket(point, steps)
    }
}

impl Responder for Session {
    ghost State = { CaseView };

    ghost Asked = { Asked };

    ghost dialogue = { talk };

    ghost stands = { λ s. s };

    ghost law = { IsLawfulCase };

    fn respond<K: Sink, L: Ledger>(
        &mut self,
        line: &[u8],
        out: &mut K,
        steps: &mut Steps<L>,
    ) -> Result<(), Stop> {
        let answer = answer_line(&mut self.envelope, line, steps);
        write_answer(self.alloc, &self.envelope, answer, out, steps)
    }

    ghost lawful = { talk_lawful };
}
