//! A journal file.
ghost use Rattle.poke_commands.specs.Journal.{AcceptsJournal, RefusesAsJournal};
ghost use Rattle.poke_commands.specs.Runs.{ReadsInput};

use poke_base::Host;
use poke_commands::input::read_input;
use poke_faults::{Fault, JOURNAL_LIMIT, JournalRefused, Refusal};
use std::alloc::Global;

/// Reads a file of at most as many bytes as a journal may have.
///
/// # Errors
/// `Read` where the file isn't there or a read failed; `Refused` where it has more bytes; out of memory.
pub fn read_journal<H: Host>(alloc: Global, name: &str, host: &mut H) -> Result<Vec<u8>, Fault>
    ensures { ReadsInput (H.outside host.old) (H.outside host.new) name.now AcceptsJournal RefusesAsJournal result }
{
    read_input(
        alloc,
        name,
        JOURNAL_LIMIT,
        Refusal::Journal(JournalRefused::TooLong),
        host,
    )
}
