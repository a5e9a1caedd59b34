use std::fs::{File, OpenOptions};
use std::io;
use std::os::fd::AsRawFd;

/// The device that takes all that is written, and gives nothing.
const NULL_DEVICE: &str = "/dev/null";

/// What stands in the place of standard devices that were closed when the program was started, for as long as it lives.
#[derive(Drop)]
pub(crate) struct StandIns {
    input: Option<File>,
    outputs: [File; 2],
}

impl StandIns {
    /// Opens the null device in the place of each standard device that is closed: else the next file that is opened would
    /// get its number, and be read or written in its place. To read from one that stands in for standard input fails, and
    /// to write to one that stands in for an output, as it does where these are closed. `Err`: the null device can't be
    /// opened, and nothing stands in.
    pub(crate) fn new(rt: &HostRuntime) -> io::Result<StandIns> {
        // the system gives what is opened the least number that is free: standard input has 0, the outputs 1 and 2
        let unread = OpenOptions::new().write(true).open(rt, NULL_DEVICE)?;
        let input = if unread.as_raw_fd() == 0 {
            Some(unread)
        } else {
            None
        };
        Ok(StandIns {
            input,
            outputs: [File::open(rt, NULL_DEVICE)?, File::open(rt, NULL_DEVICE)?],
        })
    }
}
