//! How a run of the program ends.

ghost use Rattle.ags_program.specs.Status.{number_of};
ghost use Rattle.std.specs.Prelude.{◌≡◌};

/// How a run of the program ends.
#[derive(Clone, Copy, Debug, PartialEq, Eq)]
pub enum Status {
    /// The work is done.
    Done,
    /// The answer is no: the words of a source and of a listing differ, a certificate is refused by its verdict, a play meets a start
    /// or a word that its guard doesn't declare, a case needs more than the bound of its row on order time, scales don't agree, or an edit isn't made or the last verdict refuses.
    No,
    /// The source has a fault.
    BadSource,
    /// The arguments are none of the forms.
    BadWords,
    /// A file is absent.
    AbsentFile,
    /// A file couldn't be read.
    ReadFault,
    /// The output couldn't be written.
    WriteFault,
    /// The machine file fails a test.
    BadMachine,
    /// The certificate has a fault.
    BadCert,
    /// The listing, the script, or the text of times, of scales or of edits has a fault.
    BadText,
    /// A file is longer than its limit.
    LongFile,
    /// There was too little memory.
    NoMemory,
}

impl Status {
    /// The number with which the program ends.
    pub fn number(self) -> u8
        ensures { result ≡ number_of self }
    {
        match self {
            Status::Done => 0,
            Status::No => 1,
            Status::BadSource => 2,
            Status::BadWords => 3,
            Status::AbsentFile => 4,
            Status::ReadFault => 5,
            Status::WriteFault => 6,
            Status::BadMachine => 7,
            Status::BadCert => 8,
            Status::BadText => 9,
            Status::LongFile => 10,
            Status::NoMemory => 11,
        }
    }
}
