// How a call of the program ends.
use std::io::ErrorKind;

/// How a call of the program ends.
#[derive(Clone, Copy, Debug, PartialEq, Eq)]
pub enum Status {
    /// The input is played and no client waits at the end, or it is accepted, compiled or upgraded, or nothing is wrong with it, or it
    /// prints a legal history, and the whole output is written.
    Done,
    /// The words are no command's. Nothing is read or written.
    OtherWords,
    /// The input is refused, and the whole line that refuses it is written, or all that explains it.
    Refused,
    /// The input is played, some client waits at the end, and the whole report is written.
    Waits,
    /// A read failed. Nothing is written.
    ReadFault,
    /// A write failed. A proper prefix of the output is written.
    WriteFault,
    /// There was no memory. Nothing is written.
    NoMemory,
    /// The input prints a history that isn't legal, and the whole line that says where is written.
    Illegal,
}

impl Status {
    ghost use Rattle.std.specs.Prelude.{◌≡◌};
    ghost use Rattle.sg_top.specs.Status.{status_number, status_without_words};

    /// The number that the process ends with: 0 done, 1 other words, 2 refused, 3 some client waits, 4 a read failed, 5 a write failed, 6 no memory, 7 a history isn't
    /// legal.
    pub fn number(self) -> u8
        ensures { result ≡ status_number self }
    {
        match self {
            Status::Done => 0,
            Status::OtherWords => 1,
            Status::Refused => 2,
            Status::Waits => 3,
            Status::ReadFault => 4,
            Status::WriteFault => 5,
            Status::NoMemory => 6,
            Status::Illegal => 7,
        }
    }

    /// The status of a program whose words can't be had, by the error that says why: `NoMemory` for want of memory, and
    /// `OtherWords` for anything else, as for words that are no text.
    pub fn without_words(error: ErrorKind) -> Status
        ensures { result ≡ status_without_words error }
    {
        match error {
            ErrorKind::OutOfMemory => Status::NoMemory,
            _ => Status::OtherWords,
        }
    }
}
