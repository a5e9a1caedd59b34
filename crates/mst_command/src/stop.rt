ghost use Rattle.std.specs.Prelude.{◌≡◌};

use crate::strays::Meant;
use mst_frame::Unopened;
use mst_io::RunFault;
use std::alloc::AllocError;

/// Why a script isn't run, or not to its end, or not in full.
#[derive(Clone, Copy)]
pub enum Stop<'a> {
    /// The words ask for help or are at fault. That was told, and this is the exit status.
    Told(u8),
    /// This word stands where the program has no such word, and was meant for that.
    NoWord(&'a str, Meant),
    /// The file of this name can't be opened, for this reason.
    Unopened(&'a str, Unopened),
    /// A fault of a device, or want of memory.
    Fault(RunFault),
}

/// What stops the program where memory was refused.
pub(crate) fn starved(_refused: AllocError) -> Stop<'static>
    ensures { result ≡ Stop.Fault RunFault.Memory }
{
    Stop::Fault(RunFault::Memory)
}
