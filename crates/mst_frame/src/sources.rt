ghost use Rattle.std.specs.Prelude.{◌≡◌, ℕ, true, List, Option, IfOk, IfErr, ⊤};
ghost use Rattle.std.specs.IoError.{error_kind};
ghost use Rattle.mst_frame.specs.Opened.{reason_by};

use std::fs::{File, metadata};
use std::io::{Error, ErrorKind, Read};
use std::rt::Files;

/// Why a file can't be opened.
#[derive(Clone, Copy)]
pub enum Unopened {
    /// None of this name is there.
    Missing,
    /// It may not be read.
    Denied,
    /// It is a folder.
    Folder,
    /// The system's reason is another one.
    Other,
}

/// Where scripts are read from.
pub trait Sources {
    ghost use Rattle.mst_frame.specs.declared.sources.Unopened.{Unopened};

    type Given: Read + Drop;

    type Opened: Read + Drop;

    /// What standard input gives, as far as it tells.
    ghost is_given: { Self → Option (List ℕ) → Type 0 };

    /// What the file of a name has, as far as it tells.
    ghost is_file: { Self → List ℕ → Option (List ℕ) → Type 0 };

    /// Whether the file of a name couldn't be opened, for this reason.
    ghost is_unopened: { Self → List ℕ → Unopened → Type 0 };

    /// Whether a file of a name is there, which is no folder.
    ghost is_there: { Self → List ℕ → Type 0 };

    /// Standard input.
    fn given(&self) -> Self::Given
        ensures { is_given self.now (Self.Given.remaining result) };

    /// The file of a name, from its start. `Unopened`: why the file of this very name can't be opened.
    fn open(&self, name: &str) -> Result<Self::Opened, Unopened>
        ensures opened { IfOk result (λ file. is_file self.now name.now (Self.Opened.remaining file)) }
        ensures unopened { IfErr result (λ why. is_unopened self.now name.now why) };

    /// Whether a file of a name is there, which is no folder.
    fn is_there(&self, name: &str) -> bool
        ensures { result ≡ true → is_there self.now name.now };
}

/// The system's. No clause can say what they hold.
impl<R: Files + Input> Sources for R {
    type Given = R::Reader;

    type Opened = R::File;

    ghost is_given = { λ _ _. ⊤ };

    ghost is_file = { λ _ _ _. ⊤ };

    ghost is_unopened = { λ _ _ _. ⊤ };

    ghost is_there = { λ _ _. ⊤ };

    fn given(&self) -> R::Reader {
        self.reader()
    }

    fn open(&self, name: &str) -> Result<R::File, Unopened> {
        if is_folder(self, name) {
            return Err(Unopened::Folder);
        }
        match File::open(self, name) {
            Ok(file) => Ok(file),
            Err(error) => Err(reason_of(&error)),
        }
    }

    fn is_there(&self, name: &str) -> bool {
        match metadata(self, name) {
            Ok(found) => !found.is_dir(),
            Err(_) => false,
        }
    }
}

/// Whether a folder of a name is there: the system would open it, and then fail to read it.
fn is_folder(files: &impl Files, name: &str) -> bool {
    match metadata(files, name) {
        Ok(found) => found.is_dir(),
        Err(_) => false,
    }
}

/// Why the system didn't open a file.
fn reason_of(error: &Error) -> Unopened
    ensures { result ≡ reason_by (error_kind error.now) }
{
    match error.kind() {
        ErrorKind::NotFound => Unopened::Missing,
        ErrorKind::PermissionDenied => Unopened::Denied,
        ErrorKind::IsADirectory => Unopened::Folder,
        _ => Unopened::Other,
    }
}
