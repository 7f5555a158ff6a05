//! Reading a command's files.
ghost use Rattle.std.specs.Prelude.{◌≡◌, ◌≤◌, ◌<◌, length};
ghost use Rattle.poke_commands.specs.Runs.{ReadsInput};

use poke_base::{Host, ReadFail};
use poke_faults::{Fault, Refusal};
use std::alloc::Global;

/// The bytes of a file of at most `limit` bytes.
///
/// # Errors
/// `Read` where the file isn't there or a read failed; `too_long` where it has more bytes; out of
/// memory.
pub fn read_input<H: Host>(
    alloc: Global,
    name: &str,
    limit: u64,
    too_long: Refusal,
    host: &mut H,
) -> Result<Vec<u8>, Fault>
    ensures { ReadsInput (H.outside host.old) (H.outside host.new) name.now (λ bytes out. (out.items ≡ bytes) × (length bytes ≤ limit)) (λ bytes why. (why ≡ too_long) × (limit < length bytes)) result }
{
    let mut out = Vec::new(alloc);
    match host.read_file(name, limit, &mut out) {
        Ok(()) => Ok(out),
        Err(ReadFail::Failed) => Err(Fault::Read),
        Err(ReadFail::TooLong) => Err(Fault::Refused(too_long)),
        Err(ReadFail::NoMemory) => Err(Fault::Memory),
    }
}
