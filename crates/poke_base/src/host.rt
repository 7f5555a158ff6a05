//! The outside of a program: files, standard output and standard error.

ghost use Rattle.std.specs.Prelude.{◌≡◌};
ghost use Rattle.poke_base.specs.declared.host.ReadFail.TheVariants.{NoMemory as no_memory};

use std::alloc::AllocError;
use thiserror::Error;

/// Which call was handed a file's name.
#[derive(Clone, Copy, Debug, PartialEq, Eq)]
pub enum AskedBy {
    Read,
    Make,
}

/// Why a file wasn't read whole.
#[derive(Clone, Copy, Debug, PartialEq, Eq, Error)]
pub enum ReadFail {
    /// The file isn't there, or reading it failed.
    #[error("read failed")]
    Failed,
    /// The file has more bytes than the caller allows.
    #[error("file too long")]
    TooLong,
    /// There was no memory for the file's bytes.
    #[error("no memory")]
    NoMemory,
}

impl From<AllocError> for ReadFail {
    ghost from_gives = { λ _ why. why ≡ no_memory };

    fn from(_failed: AllocError) -> ReadFail {
        ReadFail::NoMemory
    }
}

/// A file wasn't made, or not all of a piece was written.
#[derive(Clone, Copy, Debug, PartialEq, Eq, Error)]
#[error("write failed")]
pub struct WriteFail;

/// What a program reaches outside of itself.
///
/// `outside` is what lies there. A part that an implementation doesn't tell is `None`, and what the
/// calls say of contents holds where they are told. No call lets a count fall, and each changes at
/// most the count of its own kind. A failed call may have done a part of its work.
pub trait Host {
    ghost use Rattle.std.specs.Prelude.{[], IsSome};
    ghost use Rattle.poke_base.specs.Host.{Outside, ReadsFile, MakesFile, Appends, Prints, Complains};

    /// The files, the file being made, the texts, the names asked, and the counts of failures.
    ghost outside: { Self → Outside };

    /// Reads a file of at most `limit` bytes into `out`, which has to be empty.
    ///
    /// # Errors
    /// `Failed` where the file isn't there or a read failed: the count of read faults went up, and
    /// `out` is a prefix of the file. `TooLong` where the file has more than `limit` bytes: `out` is
    /// its first `limit + 1` bytes. `NoMemory`: `out` is a prefix of the file.
    fn read_file(&mut self, name: &str, limit: u64, out: &mut Vec<u8>) -> Result<(), ReadFail>
        requires { out.old.items ≡ [] }
        ensures { ReadsFile (outside self.old) (outside self.new) name.now limit out.new.items result };

    /// Makes the named file empty, whether it was there or not; it is then the file being made.
    ///
    /// # Errors
    /// `WriteFail`: the count of write faults went up, the file is as before or empty, and no file
    /// is being made.
    fn make_file(&mut self, name: &str) -> Result<(), WriteFail>
        ensures { MakesFile (outside self.old) (outside self.new) name.now result };

    /// Adds a piece to the file being made.
    ///
    /// # Errors
    /// `WriteFail`: the count of write faults went up, and a prefix of the piece was added.
    fn append(&mut self, piece: &[u8]) -> Result<(), WriteFail>
        requires { IsSome (outside self.old).making }
        ensures { Appends (outside self.old) (outside self.new) piece.now result };

    /// Writes a piece to standard output.
    ///
    /// # Errors
    /// `WriteFail`: the count of write faults went up, and a prefix of the piece was printed.
    fn print(&mut self, piece: &[u8]) -> Result<(), WriteFail>
        ensures { Prints (outside self.old) (outside self.new) piece.now result };

    /// Writes a piece to standard error.
    ///
    /// # Errors
    /// `WriteFail`: the count of complaint faults went up, and a prefix of the piece was written.
    fn complain(&mut self, piece: &[u8]) -> Result<(), WriteFail>
        ensures { Complains (outside self.old) (outside self.new) piece.now result };
}
