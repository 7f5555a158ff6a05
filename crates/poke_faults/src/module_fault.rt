//! Why a module file is refused.

use elf_module::ElfRefused;
use module_image::Refused;
use thiserror::Error;

/// How many bytes a module file may have.
pub const MODULE_LIMIT: u64 = 67_108_864;

/// The first thing that is wrong with a module file.
#[derive(Clone, Copy, Debug, PartialEq, Eq, Error)]
pub enum ModuleRefused {
    /// The file has more bytes than a module may have.
    #[error("more than {MODULE_LIMIT} bytes")]
    TooLong,
    /// It isn't read as ELF64.
    #[error(transparent)]
    Elf(ElfRefused),
    /// It isn't accepted as a module. `show` asks for whole tables alone.
    #[error(transparent)]
    Image(Refused),
}
