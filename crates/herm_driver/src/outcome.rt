//! What the top call answers.
ghost use Rattle.std.specs.Prelude.{◌≡◌, None};
ghost use Rattle.herm_driver.specs.declared.outcome.Text.TheVariants.{Whole};

use herm_base::Word;
use herm_events::{Entry, Place, Stamp};
use herm_refusals::Fault;
use herm_report::Report;

/// How a call of the program ended.
#[derive(Drop)]
pub struct Outcome {
    /// The exit status: 0 where files were accepted by `check`, a ring was printed, or process 1 ended normally; 1 refused, 2 usage, 3 read fault, 4 write fault,
    /// 5 want of memory, 6 where an exception ended process 1, 7 where it waits, 8 where a limit stopped a process, 10 missing file.
    pub status: u8,
    /// What is reported of the run, where there was one and its text was due.
    pub report: Option<Report>,
    /// Why a run on several workers was given up, where one was.
    pub aside: Option<Aside>,
}

impl Outcome {
    /// The exit status alone.
    pub fn into_status(self) -> u8
        ensures status { result ≡ self.status }
    {
        self.status
    }
}

/// Why a run on several workers was given up.
#[derive(Drop)]
pub enum Aside {
    /// Two entries differ.
    Differ(Difference),
    /// A clock reached 2^63.
    Late(Stamp),
}

/// Two entries of one place that differ: the processes' entry on the left, the place's on the right.
#[derive(Drop)]
pub struct Difference {
    pub place: Place,
    pub at: u64,
    pub left: Seen,
    pub right: Seen,
}

/// An entry, or the end of the list.
#[derive(Drop)]
pub enum Seen {
    Entry(Entry),
    End,
}

/// A text that is to be written: bytes, or the lines of refusals, whose paths are together too long to stand in memory. All memory that
/// writing them takes is taken before: `room` is that of the buffer.
#[derive(Drop)]
pub enum Text {
    Whole(Vec<u8>),
    Lines {
        names: Vec<Word>,
        faults: Vec<Fault>,
        room: Vec<u8>,
    },
}

/// A text that is to be written, with its status and the report of its run.
#[derive(Drop)]
pub struct Answer {
    pub status: u8,
    pub text: Text,
    pub report: Option<Report>,
}

/// An answer without a run.
pub fn plain(status: u8, text: Vec<u8>) -> Answer
    ensures { result ≡ record { status = status; text = Whole text; report = None } }
{
    Answer {
        status,
        text: Text::Whole(text),
        report: None,
    }
}
