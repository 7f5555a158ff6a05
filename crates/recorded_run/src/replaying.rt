//! A journal that is replayed.
ghost use Rattle.std.specs.Prelude.{◌≡◌, [], map};
ghost use Rattle.recorded_run.specs.Replaying.{ReplayDoes};
ghost use Rattle.recorded_run.specs.Underway.{ReplaysEvents};
ghost use Rattle.script_runner.specs.World.{StandsFor};
ghost use Rattle.switching.specs.State.{first};

use crate::ending::print_end;
use crate::fault::RunFault;
use crate::show::show;
use crate::tracing::{Drops, tell};
use poke_base::Host;
use run_journal::Reader;
use script_runner::World;
use tracer_ops::Tracer;

/// Replays a journal from the first event on: the event of each line is done, and what it shows is printed as one piece, if it
/// shows anything; after that the tracers are told of it. After the last line, at the end of the script, a line for each site is
/// printed, with what it then holds, a line for each drop, and a line for each tracer that is left. No file is made.
///
/// # Errors
/// `Line`, by its number from 1 on: the first line that is no event's, or whose event may not come there, or which is missing at
/// the end of the journal, where the script isn't finished. What the events before it show was printed. `Write`: a print
/// failed; nothing further was done.
pub fn replay<H: Host>(
    world: &mut World,
    journal: &[u8],
    host: &mut H,
    tracers: &mut Vec<Box<dyn Tracer>>,
) -> Result<(), RunFault>
    requires { StandsFor world.old (first world.old.image world.old.script) }
    ensures { ReplayDoes world.old.image world.old.script journal.now (map (λ b. meaning b) tracers.old.items) (map (λ b. meaning b) tracers.new.items) (H.outside host.old) (H.outside host.new) result }
{
    world.reached();
    let mut drops = Drops::new();
    replay_events(world, journal, &mut drops, host, tracers)?;
    print_end(world, &drops, tracers, host)?;
    Ok(())
}

/// Does the events of a journal, to its end and the script's, and shows what they show. Tells the tracers.
fn replay_events<H: Host>(
    world: &mut World,
    journal: &[u8],
    drops: &mut Drops,
    host: &mut H,
    tracers: &mut Vec<Box<dyn Tracer>>,
) -> Result<(), RunFault>
    requires first { StandsFor world.old (first world.old.image world.old.script) }
    requires none { drops.old.items ≡ [] }
    ensures { ReplaysEvents world.old.image (first world.old.image world.old.script) journal.now (map (λ b. meaning b) tracers.old.items) world.new (record { tracers = map (λ b. meaning b) tracers.new.items; drops = drops.new.items }) (H.outside host.old) (H.outside host.new) result }
{
    world.reached();
    let mut reader = Reader::new(journal);
    while let Some(event) = reader.next()? {
        match show(world, &event, host)? {
            Some(acted) => tell(&acted, tracers, drops),
            None => return Err(RunFault::Line(reader.line())),
        }
    }
    if world.finished() {
        Ok(())
    } else {
        Err(RunFault::Line(reader.line() + 1))
    }
}
