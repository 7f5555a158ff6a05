//! Doing one event, and showing what it shows.
ghost use Rattle.poke_base.specs.Host.{Prints};
ghost use Rattle.recorded_run.specs.Shown.{Shows};

use poke_base::{Host, Line, WriteFail};
use run_journal::Event;
use script_runner::{Acted, World};

/// Does an event, and prints what it shows as one piece, if it shows anything. `None` exactly where the event may not come;
/// nothing is done then.
///
/// # Errors
/// The event was done, and a prefix of what it shows was printed.
pub fn show<H: Host>(
    world: &mut World,
    event: &Event,
    host: &mut H,
) -> Result<Option<Acted>, WriteFail>
    ensures { Shows world.old event.now world.new (H.outside host.old) (H.outside host.new) result }
{
    let mut line = Line::new();
    match world.act(event, &mut line) {
        None => Ok(None),
        Some(acted) => match print_any(&line, host) {
            Ok(()) => Ok(Some(acted)),
            Err(failed) => Err(failed),
        },
    }
}

/// Prints a piece, if it isn't empty.
fn print_any<H: Host>(piece: &[u8], host: &mut H) -> Result<(), WriteFail>
    ensures { Prints (H.outside host.old) (H.outside host.new) piece.now result }
{
    if piece.is_empty() {
        return Ok(());
    }
    host.print(piece)
}
