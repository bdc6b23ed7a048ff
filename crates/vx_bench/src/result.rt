// How a measurement ends.

use vx_base::outcome::NoMemory;

/// How a measurement ends.
#[derive(Clone, Copy)]
pub(crate) enum Ended {
    /// It is done, and its answer is the one that is due.
    Done,
    /// The source is refused, or the answer is not the one that is due.
    Refused,
    /// The words of the command line ask for no measurement.
    Usage,
    /// The file cannot be read, or has more bytes than are read.
    NoFile,
    /// The line with the answer is not written.
    NotWritten,
    /// The run went on where it was stopped.
    WentOn,
    NoMemory,
}

impl Ended {
    /// The status of the program, with the numbers that `vexc` has for the same.
    pub(crate) fn status(self) -> u8 {
        match self {
            Ended::Done => 0,
            Ended::Refused => 1,
            Ended::Usage => 2,
            Ended::NoFile => 8,
            Ended::NotWritten => 10,
            Ended::WentOn => 11,
            Ended::NoMemory => 14,
        }
    }
}

/// How a measurement ends that says whether its answer is the one that is due.
pub(crate) fn ended_by(answer: Result<bool, NoMemory>) -> Ended {
    match answer {
        Ok(true) => Ended::Done,
        Ok(false) => Ended::Refused,
        Err(NoMemory) => Ended::NoMemory,
    }
}
