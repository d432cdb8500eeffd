//! How a run ends.

ghost use Rattle.std.specs.Prelude.{◌≡◌, ◌++◌, []};
ghost use Rattle.run_files.specs.Exits.{exit_of};
ghost use Rattle.run_files.specs.Statuses.{cert_status, edits_status, law_rule, line_status, plan_status, status_text, stock_status};
ghost use Rattle.run_files.specs.declared.status.Status.TheVariants.{Memory as NoMemory, WriteFault};

use crate::files::{CERT_FILE, EDITS_FILE, LINE_FILE, PLAN_FILE, STOCK_FILE};
use certificate::CertText;
use line_tables::LineFault;
use plan_tables::PlanFault;
use restrictions::EditsFault;
use run_io::{Block, Failed};
use stock_tables::{BRAKE_LAW, EFFORT_KEY, EFFORT_LAW, StockFault};
use unit_rules::Memory;

/// How a run ends.
#[derive(Clone, Copy, Debug, PartialEq, Eq)]
pub enum Status {
    /// The command did all its work, and its text was written whole.
    Done,
    /// Memory was wanted and could not be had.
    Memory,
    /// The words are none of the forms.
    Usage,
    /// A file or the input could not be read.
    ReadFault,
    /// The output could not be written.
    WriteFault,
    /// A file breaks a rule: the file by its number, the place in it, and the least rule broken
    /// there.
    Refused { file: u32, place: u64, rule: u32 },
    /// No train that can still keep the limits and stops ahead gets to the point; the text that
    /// says so was written whole.
    Stalled { point: u32 },
    /// A certificate breaks a rule of the checker: the rule and the point.
    NotValid { rule: u32, point: u32 },
    /// A file, by its number, has too many bytes.
    TooLong { file: u32 },
}

impl Status {
    /// The exit status of the process.
    pub fn exit(&self) -> u8
        ensures { result ≡ exit_of self.now }
    {
        match self {
            Status::Done => 0,
            Status::Memory => 1,
            Status::Usage => 2,
            Status::ReadFault => 3,
            Status::WriteFault => 4,
            Status::Refused { .. } => 5,
            Status::Stalled { .. } => 6,
            Status::NotValid { .. } => 7,
            Status::TooLong { .. } => 8,
        }
    }

    /// Puts the text of the status on an empty block, from its end on.
    pub fn put(&self, block: &mut Block)
        requires { block.old ≡ [] }
        ensures { block.new ≡ status_text self.now }
    {
        match *self {
            Status::Usage => block.put(b"usage\n"),
            Status::Refused { file, place, rule } => {
                block.put(b"\n");
                block.put_number(rule as u64);
                block.put(b" ");
                block.put_number(place);
                block.put(b" ");
                block.put_number(file as u64);
                block.put(b"refused ");
            }
            Status::NotValid { rule, point } => {
                block.put(b"\n");
                block.put_number(point as u64);
                block.put(b" ");
                block.put_number(rule as u64);
                block.put(b"not valid ");
            }
            Status::TooLong { file } => {
                block.put(b"\n");
                block.put_number(file as u64);
                block.put(b"too long ");
            }
            _ => {}
        }
    }
}

impl From<Failed> for Status {
    ghost from_gives = { λ _ s. s ≡ WriteFault };

    fn from(_: Failed) -> Status {
        Status::WriteFault
    }
}

impl From<Memory> for Status {
    ghost from_gives = { λ _ s. s ≡ NoMemory };

    fn from(_: Memory) -> Status {
        Status::Memory
    }
}

impl From<StockFault> for Status {
    ghost from_gives = { λ e s. s ≡ stock_status e };

    fn from(fault: StockFault) -> Status {
        let (place, rule) = match fault {
            StockFault::NotToml => (0, 0),
            StockFault::Key { key, rule } => (key, rule),
            StockFault::Law { table, k } => (k, law_rule(table)),
            StockFault::Memory => return Status::Memory,
        };
        Status::Refused {
            file: STOCK_FILE,
            place: place as u64,
            rule,
        }
    }
}

// The rule of the law of a table, by its key.
fn law_rule(table: u32) -> u32
    ensures { result ≡ law_rule table }
{
    if table == EFFORT_KEY {
        EFFORT_LAW
    } else {
        BRAKE_LAW
    }
}

impl From<LineFault> for Status {
    ghost from_gives = { λ e s. s ≡ line_status e };

    fn from(fault: LineFault) -> Status {
        match fault {
            LineFault::Bad { place, rule } => Status::Refused {
                file: LINE_FILE,
                place,
                rule,
            },
            LineFault::Missing => Status::Refused {
                file: LINE_FILE,
                place: 0,
                rule: 0,
            },
            LineFault::Memory => Status::Memory,
        }
    }
}

impl From<PlanFault> for Status {
    ghost from_gives = { λ e s. s ≡ plan_status e };

    fn from(fault: PlanFault) -> Status {
        match fault {
            PlanFault::Bad { place, rule } => Status::Refused {
                file: PLAN_FILE,
                place,
                rule,
            },
            PlanFault::Memory => Status::Memory,
        }
    }
}

impl From<EditsFault> for Status {
    ghost from_gives = { λ e s. s ≡ edits_status e };

    fn from(fault: EditsFault) -> Status {
        match fault {
            EditsFault::Bad { place, code } => Status::Refused {
                file: EDITS_FILE,
                place,
                rule: code,
            },
            EditsFault::Memory => Status::Memory,
        }
    }
}

impl From<CertText> for Status {
    ghost from_gives = { λ e s. s ≡ cert_status e };

    fn from(fault: CertText) -> Status {
        match fault {
            CertText::Bad { place, rule } => Status::Refused {
                file: CERT_FILE,
                place,
                rule,
            },
            CertText::Memory => Status::Memory,
        }
    }
}
