use thiserror::Error;

/// What was counted by what came to the end of its inputs: a run of the script's lines, a check of those of the script and
/// of the captures, and so on. A line counts once at most.
#[derive(Clone, Copy, Debug, PartialEq, Eq)]
pub struct Outcome {
    /// Lines that were refused, but for want of memory. What is asked of a network and can't be told counts as one.
    pub refused: u64,
    /// Lines that were refused for want of memory. Each prints so and changes nothing, and the lines
    /// after it were served.
    pub memory: u64,
    /// Captured messages that differ from the planned ones, in one field or more. A script has none. Two networks that
    /// differ count as one, and so does a network of which some single failure cuts a VID.
    pub differing: u64,
}

/// Why a run, a check, a question or a comparison of two networks stopped before the end. The lines before were served, and
/// a front of what is printed went out: no byte of another text, and none twice.
#[derive(Clone, Copy, Debug, Error, PartialEq, Eq)]
pub enum RunFault {
    /// The reader failed, or gave no end in 2^32 calls. A call that was interrupted has failed, too,
    /// and isn't made again.
    #[error("read fault")]
    Read,
    /// The writer failed, or took no byte of some that it was given. A call that was interrupted has
    /// failed, too, and isn't made again.
    #[error("write fault")]
    Write,
    /// Memory was wanted and refused for the plan that captures are compared with, for the answer to a question, or for
    /// how two networks differ. A run doesn't answer this: a line that wants memory is refused, and counted in
    /// [`Outcome::memory`].
    #[error("out of memory")]
    Memory,
}

/// How many calls of a reader are made at most.
pub const TURNS: u64 = 1 << 32;

const _: () = prove!(TURNS == 4_294_967_296);
