//! Why the files of a command line weren't loaded.

/// Why the files of a command line weren't loaded, where a program refuses a file by an `R`.
#[derive(Drop)]
pub enum Unloaded<'a, R> {
    /// There is no file of this name.
    Absent(&'a str),
    /// The file of this name is longer than its limit, in bytes.
    TooLong {
        /// The file's name.
        name: &'a str,
        /// The limit of its kind.
        limit: u64,
    },
    /// A file was read and is refused.
    Refused(R),
    /// A file couldn't be read.
    ReadFault,
    /// There was too little memory.
    NoMemory,
}
