// The lines of the program, by what they tell.
ghost use Rattle.std.specs.Prelude.{◌≡◌};
ghost use Rattle.cfa_output.specs.Lines.{settled_line, halt_line};

use cfa_base::{Name, PromiseId};

/// A line that is put. The fields are the words of the line that vary, in their order; a text is put as it stands.
#[derive(Debug, Drop)]
pub enum Item {
    /// `words: refused`.
    WordsRefused,
    /// `moment: refused`.
    MomentRefused,
    /// `NAME:LINE:COL CODE WORD`: a policy is refused at a place of one of its files.
    Refused(Name, u64, u64, Name, Name),
    /// `NAME L4 TooLong`: a file of a policy is too long.
    SourceLong(Name),
    /// `NAME:LINE J1 BadRecord`: a line of a journal is no record in its place.
    JournalBad(Name, u64),
    /// `NAME J2 TooLong`: a journal is too long.
    JournalLong(Name),
    /// `repaired ID CHANGES`: a promise was repaired by so many changes.
    Repaired(PromiseId, u64),
    /// `failed ID REASON WORD`: a promise failed.
    Failed(PromiseId, Name, Name),
    /// `R: TEXT`: a report.
    Report(Name),
    /// `total kept K repaired R failed F skipped S`: how many promises ended how in a run.
    Total(u64, u64, u64, u64),
    /// `settled: yes` or `settled: no (CAUSE)`: whether a rerun would change nothing.
    Settled(End),
    /// `accepted N`: a policy has no conflict, and so many live instances with acts.
    Accepted(u64),
    /// `conflict CAUSE FIRST SECOND RESOURCE`: the first conflict of a policy.
    Conflict(Name, PromiseId, PromiseId, Name),
    /// `stopped: CAUSE`: what stopped a call.
    Stopped(Halt),
    /// `run MOMENT repaired R failed F open O`: a run of a journal, and how many of its records tell what.
    Audit(u64, u64, u64, u64),
    /// `torn BYTES`: a journal ends in so many bytes without a newline.
    Torn(u64),
    /// `demo N`: a demo of so many promises.
    Demo(u64),
    /// `repaired R`: how many promises the first run of a demo repaired.
    DemoRepaired(u64),
    /// `changes C`: how many changes the first run of a demo made.
    Changes(u64),
    /// `rerun L`: how many entries the second run of a demo added to the site's log.
    Rerun(u64),
    /// `ID repaired R changes C failed F open O last MOMENT`: what a journal tells of a promise.
    History(PromiseId, u64, u64, u64, u64, u64),
    /// `unrecorded PATH MOMENT`: a file's content changed between two recorded writes. The path is put as it stands.
    Unrecorded(Name, u64),
    /// `runs N`: how many runs a journal tells of.
    Runs(u64),
    /// `quiet ID`: the edits of a promise always settle.
    Quiet(PromiseId),
    /// `clash ID FIRST SECOND RULE`: the first two edits of a promise that clash, by their numbers, and the rule.
    Clash(PromiseId, u64, u64, Name),
    /// `edits Q of T`: how many scripts of a policy always settle, and how many it has.
    Edits(u64, u64),
}

/// Whether a rerun would change nothing, or why that isn't claimed.
#[derive(Clone, Copy, Debug, PartialEq, Eq)]
pub enum End {
    /// It would change nothing.
    Yes,
    /// Locks were on.
    Locks,
    /// A promise failed.
    Failed,
    /// The policy has a conflict.
    Conflict,
    /// The analysis needed too many visits.
    Limit,
}

impl End {
    /// The line that tells it, without taking memory.
    pub fn line(self) -> &'static str
        ensures { result.now ≡ settled_line self }
    {
        match self {
            End::Yes => "settled: yes\n",
            End::Locks => "settled: no (locks)\n",
            End::Failed => "settled: no (failed)\n",
            End::Conflict => "settled: no (conflict)\n",
            End::Limit => "settled: no (limit)\n",
        }
    }
}

/// What stopped a call, as its last line tells it.
#[derive(Clone, Copy, Debug, PartialEq, Eq)]
pub enum Halt {
    /// A call on the outside failed.
    Outside,
    /// No memory was left.
    Memory,
    /// Too many visits were needed.
    Visits,
    /// A pattern was refused for its size.
    Pattern,
}

impl Halt {
    /// The line that tells it, without taking memory.
    pub fn line(self) -> &'static str
        ensures { result.now ≡ halt_line self }
    {
        match self {
            Halt::Outside => "stopped: outside\n",
            Halt::Memory => "stopped: memory\n",
            Halt::Visits => "stopped: visits\n",
            Halt::Pattern => "stopped: pattern\n",
        }
    }
}
