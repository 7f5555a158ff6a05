//! Why a module isn't accepted.
ghost use Rattle.std.specs.Prelude.{◌≡◌};
ghost use Rattle.module_parts.specs.declared.refused.Refused.TheVariants.{NoMemory as no_memory};

use site_tables::TableKind;
use std::alloc::{AllocError, AllocFailed};
use thiserror::Error;

/// The first thing that is wrong with a module, in the order in which they stand here, with the number that
/// tells the place: how many, a size in bytes, or an address.
#[derive(Clone, Copy, Debug, PartialEq, Eq, Error)]
pub enum Refused {
    /// There isn't exactly one section `.text`; how many there are.
    #[error("{0} sections .text")]
    TextCount(u64),
    /// The text is empty, longer than 65,536 bytes, or reaches past the last address; its size.
    #[error("a text of {0:x} bytes")]
    TextSize(u64),
    /// A table isn't whole entries; which one, and its length.
    #[error("a table of {1:x} bytes")]
    Table(TableKind, u64),
    /// There are more than 1,024 entries; how many.
    #[error("{0} sites")]
    SiteCount(u64),
    /// A site isn't in the text; its address.
    #[error("the site {0:x} outside the text")]
    SiteOutside(u64),
    /// No instruction of 2 or 5 bytes stands at a jump site; its address.
    #[error("the jump site {0:x} has no instruction of 2 or 5 bytes")]
    SiteLength(u64),
    /// A site begins inside another; its address.
    #[error("the site {0:x} inside another")]
    SiteOverlap(u64),
    /// One of a key's 16 bytes isn't loaded; the key's address.
    #[error("the key {0:x} isn't loaded")]
    KeyOutside(u64),
    /// A static key's count is negative; the key's address.
    #[error("the key {0:x} with a negative count")]
    KeyState(u64),
    /// A jump of two bytes doesn't reach its target; the site's address.
    #[error("the jump at {0:x} doesn't reach its target")]
    NoReach(u64),
    /// There are trace sites, but no function `ftrace_caller`; the first trace site's address.
    #[error("no tracer for the site {0:x}")]
    TracerMissing(u64),
    /// No instruction of the subset stands at an address of the text.
    #[error("no instruction at {0:x}")]
    Undecoded(u64),
    /// A jump, call, key or function leads where no instruction begins; from where, and to where.
    #[error("no instruction begins at {1:x}, where {0:x} leads")]
    BadTarget(u64, u64),
    /// The last instruction may be followed by one past the text; its address.
    #[error("the text ends after {0:x}")]
    EndFalls(u64),
    /// There was no memory.
    #[error("no memory")]
    NoMemory,
}

impl From<AllocError> for Refused {
    ghost from_gives = { λ _ why. why ≡ no_memory };

    fn from(_failed: AllocError) -> Refused {
        Refused::NoMemory
    }
}

impl<T: Drop> From<AllocFailed<T>> for Refused {
    ghost from_gives = { λ _ why. why ≡ no_memory };

    fn from(_failed: AllocFailed<T>) -> Refused {
        Refused::NoMemory
    }
}
