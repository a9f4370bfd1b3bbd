// How a command ends.
ghost use Rattle.std.specs.Prelude.{◌≡◌};

use shared_terms::{AuditCause, Cause, LinkFault, Role};
use xid_params::XidFault;

/// How a command ends. Everything but `Done` has one cause, which the contract of the command names.
#[derive(Clone, Copy, PartialEq, Eq)]
pub enum Status {
    /// The job was done.
    Done,
    /// The words are no command's.
    Usage,
    /// The script's first faulty line, counted from 1.
    BadScript {
        line: u32,
        cause: Cause,
    },
    /// The octet of a recording that is none of a recording's, or the place where one is missing, counted from 0.
    BadRecording {
        at: u64,
    },
    /// The octet that is no hexadecimal digit, counted from 0, or the number of digits where that is odd.
    BadHex {
        at: u64,
    },
    /// The digits spell no offer.
    BadXid(XidFault),
    /// The input that this word names, or is, is longer than its limit. Words count from 0.
    TooLong {
        word: usize,
    },
    /// An input was not read.
    ReadFault,
    /// An output was not made, not written, or a line was not printed.
    WriteFault,
    /// What that end receives can't be followed from that symbol on, counted from 0.
    LineLost {
        role: Role,
        symbol: u64,
    },
    /// Up to that turn, the last one, the originator saw no pattern of the answerer's.
    NotDetected {
        turn: u64,
    },
    /// The end of that role asked as often as it may, and nothing that it heard acknowledged more: a segment, its XID, SABME or DISC, a poll, or a break.
    LinkLost {
        role: Role,
        segment: u64,
        turn: u64,
    },
    /// The end of that role received in that turn what was not sent, by a chance of the noise.
    ChanceMatch {
        role: Role,
        turn: u64,
    },
    /// Memory was not found, by the program or by the folder.
    NoMemory,
    /// In that turn the end heard what no peer may send, or was refused.
    PeerFault {
        fault: LinkFault,
        turn: u64,
    },
    /// The first line of a trace that isn't the run's, counted from 1, and in what it differs.
    AuditNo {
        line: u64,
        cause: AuditCause,
    },
    /// What that end sent in that turn isn't all in its recording, or is no slot that an end sends.
    BadTap {
        role: Role,
        turn: u64,
    },
    /// The link of that number, 1 or 2, of two over one line was given up, for the segment of the end of that role.
    PairLinkLost {
        link: u8,
        role: Role,
        segment: u64,
        turn: u64,
    },
    /// The originator of the link of that number, 1 or 2, of two over one line saw no pattern of its answerer's.
    PairNotDetected {
        link: u8,
        turn: u64,
    },
}

impl Status {
    ghost use Rattle.command_base.specs.Status.{code_of};

    /// The exit status.
    pub fn code(&self) -> u8
        ensures { result ≡ code_of self.now }
    {
        match self {
            Status::Done => 0,
            Status::Usage => 2,
            Status::BadScript { .. }
            | Status::BadRecording { .. }
            | Status::BadHex { .. }
            | Status::BadXid(_) => 3,
            Status::TooLong { .. } => 4,
            Status::ReadFault => 5,
            Status::WriteFault => 6,
            Status::LineLost { .. } => 7,
            Status::NotDetected { .. } | Status::PairNotDetected { .. } => 8,
            Status::LinkLost { .. } | Status::PairLinkLost { .. } => 9,
            Status::ChanceMatch { .. } => 10,
            Status::NoMemory => 11,
            Status::PeerFault { .. } => 12,
            Status::AuditNo { .. } => 13,
            Status::BadTap { .. } => 14,
        }
    }
}
