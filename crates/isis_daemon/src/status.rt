//! How a run of the program ended.
ghost use Rattle.std.specs.Prelude.{◌≡◌, Some};
ghost use Rattle.isis_daemon.specs.MergeRuns.{reason_of};
ghost use Rattle.isis_daemon.specs.StateRuns.{state_status};
ghost use Rattle.isis_daemon.specs.Statuses.{script_status, run_status, whole_status, text_status, walk_status, losses_status, merge_status, weave_status, config_status, daemon_status, status_code, status_line};

use capture_text::Absence;
use circuit_serve::DaemonEnd;
use daemon_config::{ConfigFault, ConfigKey, ConfigKind};
use isis_edge::{TextFailed, WholeFault};
use lab_losses::{LossesReason, WriteFault};
use lab_text::{Reason, RunFault, ScriptFault};
use losses_text::{MergeFault, MergeReason};
use network_lab::LimitName;
use state_replay::StateFault;
use std::fmt;
use walk_text::{WalkFault, WalkReason};
use weave_text::{WeaveReason, WeaveTextFault};

/// How many octets an input may have. With more the run ends as `TooLong`.
pub const INPUT_LIMIT: usize = 16_777_216;

/// How a run of the program ended.
#[derive(Clone, Copy, Debug, PartialEq, Eq)]
pub enum Status {
    /// The whole output was written.
    Done,
    /// The words are none of the program's commands. Nothing was written.
    Usage,
    /// This line of the script, counted from 1, is refused. Nothing was written.
    ScriptRefused {
        line: usize,
        reason: Reason,
    },
    /// A read of the input failed. Nothing was written.
    ReadFault,
    /// A write of the output failed. A prefix of it was written.
    WriteFault,
    /// The input has more than 16,777,216 octets. Nothing was written.
    TooLong,
    /// There is no memory for the run. A prefix of the output was written.
    OutOfMemory,
    /// The configuration is refused for this, at this key. Nothing was written.
    ConfigRefused {
        kind: ConfigKind,
        key: ConfigKey,
    },
    /// A circuit's port couldn't be opened, or a thread wasn't started. A prefix of the journal was written.
    NotStarted,
    /// The script asks for more than this limit allows. Nothing was written.
    LabLimit {
        which: LimitName,
    },
    /// The journals can't be woven: the first entry against it, by journal and entry, counted from 1, and why. Nothing was
    /// written.
    WeaveRefused {
        journal: usize,
        entry: u64,
        reason: WeaveReason,
    },
    /// There is no walk, and why. Nothing was written.
    NoWalk {
        reason: WalkReason,
    },
    /// There are more than 16,777,216 schedules of lost deliveries. Nothing was written.
    ScheduleLimit,
    /// There are no lost deliveries to tell of, and why. Nothing was written.
    NoLosses {
        reason: LossesReason,
    },
    /// The whole text was written, but captured LSPs lack this of the system that was asked for.
    Absent {
        what: Absence,
    },
}

impl Status {
    /// The program's exit code.
    pub fn code(&self) -> u8
        ensures { result ≡ status_code self.now }
    {
        match *self {
            Status::Done => 0,
            Status::Usage => 2,
            Status::ScriptRefused { .. } => 3,
            Status::ReadFault => 4,
            Status::WriteFault => 5,
            Status::TooLong => 6,
            Status::OutOfMemory => 7,
            Status::ConfigRefused { .. } => 8,
            Status::NotStarted => 9,
            Status::LabLimit { .. } => 10,
            Status::WeaveRefused { .. } => 11,
            Status::NoWalk { .. } => 12,
            Status::ScheduleLimit => 10,
            Status::NoLosses { .. } => 13,
            Status::Absent { .. } => 0,
        }
    }
}

impl fmt::Display for Status {
    ghost output = { λ status. Some (status_line status) };

    fn fmt<W: fmt::Write>(&self, f: &mut fmt::Formatter<W>) -> fmt::Result {
        match self {
            Status::Done => write!(f, "isis: done"),
            Status::Usage => write!(f, "isis: usage"),
            Status::ScriptRefused { line, reason } => write!(f, "isis: line {line} {reason}"),
            Status::ReadFault => write!(f, "isis: read fault"),
            Status::WriteFault => write!(f, "isis: write fault"),
            Status::TooLong => write!(f, "isis: input too long"),
            Status::OutOfMemory => write!(f, "isis: out of memory"),
            Status::ConfigRefused { kind, key } => write!(f, "isis: config {kind} {key}"),
            Status::NotStarted => write!(f, "isis: not started"),
            Status::LabLimit { which } => write!(f, "isis: limit {which}"),
            Status::WeaveRefused {
                journal,
                entry,
                reason,
            } => write!(f, "isis: journal {journal} entry {entry} {reason}"),
            Status::NoWalk { reason } => write!(f, "isis: no walk {reason}"),
            Status::ScheduleLimit => write!(f, "isis: limit schedules"),
            Status::NoLosses { reason } => write!(f, "isis: no losses {reason}"),
            Status::Absent { what } => write!(f, "isis: {what}"),
        }
    }
}

impl From<ScriptFault> for Status {
    ghost from_gives = { λ fault status. status ≡ script_status fault };

    fn from(fault: ScriptFault) -> Status {
        match fault {
            ScriptFault::Refused { line, reason } => Status::ScriptRefused { line, reason },
            ScriptFault::Limit(which) => Status::LabLimit { which },
            ScriptFault::OutOfMemory => Status::OutOfMemory,
        }
    }
}

impl From<WholeFault> for Status {
    ghost from_gives = { λ fault status. status ≡ whole_status fault };

    fn from(fault: WholeFault) -> Status {
        match fault {
            WholeFault::Fault => Status::ReadFault,
            WholeFault::TooLong => Status::TooLong,
            WholeFault::OutOfMemory => Status::OutOfMemory,
        }
    }
}

impl From<RunFault> for Status {
    ghost from_gives = { λ fault status. status ≡ run_status fault };

    fn from(fault: RunFault) -> Status {
        match fault {
            RunFault::Refused { line, reason } => Status::ScriptRefused { line, reason },
            RunFault::Limit(which) => Status::LabLimit { which },
            RunFault::Write => Status::WriteFault,
            RunFault::OutOfMemory => Status::OutOfMemory,
        }
    }
}

impl From<TextFailed> for Status {
    ghost from_gives = { λ fault status. status ≡ text_status fault };

    fn from(fault: TextFailed) -> Status {
        match fault {
            TextFailed::Write => Status::WriteFault,
            TextFailed::OutOfMemory => Status::OutOfMemory,
        }
    }
}

impl From<WalkFault> for Status {
    ghost from_gives = { λ fault status. status ≡ walk_status fault };

    fn from(fault: WalkFault) -> Status {
        match fault {
            WalkFault::Refused { line, reason } => Status::ScriptRefused { line, reason },
            WalkFault::Limit(which) => Status::LabLimit { which },
            WalkFault::NoWalk(reason) => Status::NoWalk { reason },
            WalkFault::Write => Status::WriteFault,
            WalkFault::OutOfMemory => Status::OutOfMemory,
        }
    }
}

impl From<WriteFault> for Status {
    ghost from_gives = { λ fault status. status ≡ losses_status fault };

    fn from(fault: WriteFault) -> Status {
        match fault {
            WriteFault::Refused { line, reason } => Status::ScriptRefused { line, reason },
            WriteFault::Limit(which) => Status::LabLimit { which },
            WriteFault::Schedules => Status::ScheduleLimit,
            WriteFault::NoLosses(reason) => Status::NoLosses { reason },
            WriteFault::Write => Status::WriteFault,
            WriteFault::OutOfMemory => Status::OutOfMemory,
        }
    }
}

impl From<MergeFault> for Status {
    ghost from_gives = { λ fault status. status ≡ merge_status fault };

    fn from(fault: MergeFault) -> Status {
        match fault {
            MergeFault::Refused { line, reason } => Status::ScriptRefused {
                line,
                reason: reason_of(reason),
            },
            MergeFault::Parts => Status::NoLosses {
                reason: LossesReason::Parts,
            },
            MergeFault::OutOfMemory => Status::OutOfMemory,
        }
    }
}

/// Why a line of texts of losses is refused, as of a script.
fn reason_of(reason: MergeReason) -> Reason
    ensures { result ≡ reason_of reason }
{
    match reason {
        MergeReason::Form => Reason::Form,
        MergeReason::Again => Reason::Again,
    }
}

impl From<WeaveTextFault> for Status {
    ghost from_gives = { λ fault status. status ≡ weave_status fault };

    fn from(fault: WeaveTextFault) -> Status {
        match fault {
            WeaveTextFault::Refused { line, reason } => Status::ScriptRefused { line, reason },
            WeaveTextFault::Limit(which) => Status::LabLimit { which },
            WeaveTextFault::NotWoven {
                journal,
                entry,
                reason,
            } => Status::WeaveRefused {
                journal,
                entry,
                reason,
            },
            WeaveTextFault::Write => Status::WriteFault,
            WeaveTextFault::OutOfMemory => Status::OutOfMemory,
        }
    }
}

impl From<StateFault> for Status {
    ghost from_gives = { λ fault status. status ≡ state_status fault };

    fn from(fault: StateFault) -> Status {
        match fault {
            StateFault::Read => Status::ReadFault,
            StateFault::TooLong => Status::TooLong,
            StateFault::Head { line } => refused_at(line, Reason::Head),
            StateFault::Config { kind, key } => Status::ConfigRefused { kind, key },
            StateFault::Form { line } => refused_at(line, Reason::Form),
            StateFault::Event { entry } => not_replayed(entry, WeaveReason::Event),
            StateFault::Reply { entry } => not_replayed(entry, WeaveReason::Reply),
            StateFault::Write => Status::WriteFault,
            StateFault::OutOfMemory => Status::OutOfMemory,
        }
    }
}

/// A line of a configuration or of its journal is refused.
fn refused_at(line: u64, reason: Reason) -> Status
    ensures { result ≡ Status.ScriptRefused line reason }
{
    Status::ScriptRefused {
        line: line as usize,
        reason,
    }
}

/// An entry of the one journal isn't what its router answers.
fn not_replayed(entry: u64, reason: WeaveReason) -> Status
    ensures { result ≡ Status.WeaveRefused 1 entry reason }
{
    Status::WeaveRefused {
        journal: 1,
        entry,
        reason,
    }
}

impl From<ConfigFault> for Status {
    ghost from_gives = { λ fault status. status ≡ config_status fault };

    fn from(fault: ConfigFault) -> Status {
        match fault {
            ConfigFault::Refused { kind, key } => Status::ConfigRefused { kind, key },
            ConfigFault::OutOfMemory => Status::OutOfMemory,
        }
    }
}

impl From<DaemonEnd> for Status {
    ghost from_gives = { λ end status. status ≡ daemon_status end };

    fn from(end: DaemonEnd) -> Status {
        match end {
            DaemonEnd::Done => Status::Done,
            DaemonEnd::NotStarted => Status::NotStarted,
            DaemonEnd::WriteFault => Status::WriteFault,
            DaemonEnd::OutOfMemory => Status::OutOfMemory,
        }
    }
}
