/// How a run ended, by the number that the process ends with.
#[derive(Clone, Copy, Debug, PartialEq, Eq)]
pub enum Status {
    /// Each path leads to a value or lacks its key, or all items are listed, or all edits are made, or
    /// the schema is filled, and the report is written.
    Done = 0,
    /// The last line of the report is that of an error of the document, or names the first edit that
    /// is refused.
    DocumentError = 1,
    /// The words ask for no command.
    BadUsage = 2,
    /// A line of the head is bad.
    BadLines = 3,
    /// The input has more than 256 MiB.
    TooLarge = 4,
    /// A read failed, and nothing was written.
    ReadFault = 5,
    /// A write failed, and what was written is a prefix of the report.
    WriteFault = 6,
    /// Memory ran out, and nothing was written.
    NoMemory = 7,
}
