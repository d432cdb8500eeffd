//! The replies of a session that are a line each.

ghost use Rattle.std.specs.Prelude.{◌≡◌, [], OnOk, OnErr};
ghost use Rattle.run_io.specs.Told.{HasCause, Writes, WritesFront};
ghost use Rattle.report_text.specs.Replies.{reply_line};

use crate::put_reach;
use run_io::{Block, Failed, Sink};
use time_brackets::Bracket;
use unit_rules::Reach;

/// A reply of one line.
#[derive(Clone, Copy, Debug, PartialEq, Eq)]
pub enum Reply {
    /// `ok whole` or `ok stalled K`: an edit was made, and the train gets so far now.
    Made(Reach),
    /// `time LO HI`: when the train comes to a point, in nanoseconds.
    Time(Bracket),
    /// `none`: it doesn't come to the point.
    NoTime,
    /// `error CODE`: the line was refused.
    Refused(u32),
}

/// Writes a reply of one line.
pub fn write_reply<K: Sink>(out: &mut K, reply: Reply) -> Result<(), Failed>
    ensures ok { OnOk result (Writes (K.told out.old) (K.told out.new) (reply_line reply)) }
    ensures failed { OnErr result (WritesFront (K.told out.old) (K.told out.new)
        (reply_line reply)) }
    ensures cause { HasCause (K.told out.old) (K.told out.new) result }
{
    let mut block = Block::new();
    put_reply(&mut block, reply);
    block.flush(out)
}

// Puts a reply of one line on an empty block.
fn put_reply(block: &mut Block, reply: Reply)
    requires { block.old ≡ [] }
    ensures { block.new ≡ reply_line reply }
{
    match reply {
        Reply::Made(reach) => {
            put_reach(block, reach);
            block.put(b"ok ");
        }
        Reply::Time(bracket) => {
            block.put(b"\n");
            block.put_number(bracket.hi);
            block.put(b" ");
            block.put_number(bracket.lo);
            block.put(b"time ");
        }
        Reply::NoTime => block.put(b"none\n"),
        Reply::Refused(code) => {
            block.put(b"\n");
            block.put_number(code as u64);
            block.put(b"error ");
        }
    }
}
