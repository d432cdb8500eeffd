//! Sessions: an input is cut into lines, and each is answered before more is read.
//!
//! Of a line no more bytes are kept than tell that it is too long for a command, so a session takes no
//! memory of its own. How the input comes in pieces is of no matter to the replies.
#![tactic(auto)]

ghost use Rattle.session_lines.specs.Dialogues.{Dialogue, IsLawful};
ghost use Rattle.session_lines.specs.Sessions.{Responds};

mod kept;
mod session;

use run_io::Sink;
pub use session::answer_lines;
use std::sync::ledger::Ledger;
use unit_rules::Steps;

/// Why a line has no whole reply.
#[derive(Clone, Copy, Debug, PartialEq, Eq)]
pub enum Stop {
    /// The output could not be written.
    Write,
    /// Memory was wanted and could not be had; nothing was written.
    Memory,
}

/// How a session ends.
#[derive(Clone, Copy, Debug, PartialEq, Eq)]
pub enum Ending {
    /// The input was read to its end, and each line has its reply.
    Done,
    /// The input has too many bytes; the lines that end before its limit have their replies.
    TooLong,
    /// The input could not be read.
    ReadFault,
    /// The output could not be written.
    WriteFault,
    /// Memory was wanted and could not be had.
    Memory,
}

/// What answers the lines of an input, one after another.
pub trait Responder {
    /// How things may stand between two lines.
    ghost State: { Type 0 };

    /// What a line may ask for.
    ghost Asked: { Type 0 };

    /// How lines are answered.
    ghost dialogue: { Dialogue State Asked };

    /// How things stand.
    ghost stands: { Self → State };

    /// What holds of how things stand, before the first line and after each.
    ghost law: { State → Type 0 };

    /// Answers a line, given without the bytes that end it.
    fn respond<K: Sink, L: Ledger>(
        &mut self,
        line: &[u8],
        out: &mut K,
        steps: &mut Steps<L>,
    ) -> Result<(), Stop>
        requires { law (stands self.old) }
        ensures { Responds dialogue (stands self.old) (stands self.new) line.now
            (K.told out.old) (K.told out.new) steps.old steps.new result };

    /// The dialogue keeps the law, and has a reply to each line.
    ghost lawful: { IsLawful dialogue law };
}

#[cfg(test)]
mod tests;
