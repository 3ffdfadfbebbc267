//! What a run of any program may stop at, and what its statuses come of.

/// What a status comes of.
#[derive(Clone, Copy)]
pub enum Cause {
    /// What the files hold, or what was typed.
    Content,
    /// A file is absent.
    Absence,
    /// A file couldn't be read.
    ReadFault,
    /// The output couldn't be written.
    WriteFault,
    /// There was too little memory.
    Memory,
}

/// What any program stops at, whatever it is for.
#[derive(Clone, Copy)]
pub enum Stop {
    /// A file is absent.
    Absent,
    /// A file is longer than its limit.
    TooLong,
    /// A file couldn't be read.
    ReadFault,
    /// The output couldn't be written.
    WriteFault,
    /// There was too little memory.
    NoMemory,
}
