//! What a line found of memory.

/// What a line of a script found of memory.
#[derive(Clone, Copy, PartialEq, Eq)]
pub enum Memory {
    Ample,
    /// None for its client's connect: the line was not run.
    NoneToConnect,
    /// None to fold the full window of the history before its client's connect: the line was not run.
    NoneToFoldFirst,
    /// None to read what the line asks for, or the line at this place of the command list that it ends.
    NoneToRead(usize),
    /// None to run what was read, or the command at this place of the list.
    NoneToRun(usize),
    /// None to fold the full window before what was read, or before the command at this place of the list.
    NoneToFold(usize),
}
