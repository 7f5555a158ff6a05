//! A run by a seed, recorded in a journal.
ghost use Rattle.std.specs.Prelude.{◌≡◌, IsSome, [], map};
ghost use Rattle.poke_base.specs.Host.{Appends};
ghost use Rattle.recorded_run.specs.Running.{RunDoes};
ghost use Rattle.recorded_run.specs.Stepping.{CanDo, RecordsEvent, RecordsEvents};
ghost use Rattle.run_journal.specs.Laws.{HasLine};
ghost use Rattle.run_journal.specs.Spelling.{event_line};
ghost use Rattle.script_runner.specs.World.{StandsFor};
ghost use Rattle.switching.specs.State.{first};

use crate::ending::print_end;
use crate::fault::RunFault;
use crate::show::show;
use crate::tracing::{Drops, tell};
use poke_base::{Host, Line, WriteFail};
use run_journal::{Event, HEADER, line_of};
use script_runner::{Words, World};
use tracer_ops::Tracer;

/// No run has more events.
const MOST_EVENTS: u32 = 8_106_496;

/// Runs a module and a script from the first event on by words that choose, and records it: first the journal's header is
/// appended to the file that is being made. Then of each event its line is appended, it is done, and what it shows is printed as
/// one piece, if it shows anything; after that the tracers are told of it. At the end of the script a line for each site is
/// printed, with what it then holds, a line for each drop, and a line for each tracer that is left.
///
/// # Errors
/// `Write`: an append or a print failed; nothing further was done. It is never `Line`.
pub fn run<H: Host>(
    world: &mut World,
    words: &mut Words,
    host: &mut H,
    tracers: &mut Vec<Box<dyn Tracer>>,
) -> Result<(), RunFault>
    requires making { IsSome (H.outside host.old).making }
    requires first { StandsFor world.old (first world.old.image world.old.script) }
    requires idle { world.old.idle ≡ 0 }
    ensures { RunDoes world.old.image world.old.script words.old (map (λ b. meaning b) tracers.old.items) (map (λ b. meaning b) tracers.new.items) (H.outside host.old) (H.outside host.new) result }
{
    world.reached();
    host.append(HEADER)?;
    let mut drops = Drops::new();
    run_events(world, words, &mut drops, host, tracers)?;
    print_end(world, &drops, tracers, host)?;
    Ok(())
}

/// Records and does the chosen events, to the end of the script.
fn run_events<H: Host>(
    world: &mut World,
    words: &mut Words,
    drops: &mut Drops,
    host: &mut H,
    tracers: &mut Vec<Box<dyn Tracer>>,
) -> Result<(), WriteFail>
    requires making { IsSome (H.outside host.old).making }
    requires first { StandsFor world.old (first world.old.image world.old.script) }
    requires idle { world.old.idle ≡ 0 }
    requires none { drops.old.items ≡ [] }
    ensures { RecordsEvents world.old.image world.old.script words.old (map (λ b. meaning b) tracers.old.items) world.new (record { tracers = map (λ b. meaning b) tracers.new.items; drops = drops.new.items }) (H.outside host.old) (H.outside host.new) result }
{
    world.reached();
    for _ in 0..=MOST_EVENTS {
        let Some(event) = world.choose(words) else {
            return Ok(());
        };
        record_event(world, &event, drops, host, tracers)?;
    }
    Ok(())
}

/// Appends the line of an event that may come to the journal, does it, prints what it shows, and tells the tracers.
fn record_event<H: Host>(
    world: &mut World,
    event: &Event,
    drops: &mut Drops,
    host: &mut H,
    tracers: &mut Vec<Box<dyn Tracer>>,
) -> Result<(), WriteFail>
    requires making { IsSome (H.outside host.old).making }
    requires can { CanDo world.old event.now drops.old.items }
    ensures { RecordsEvent world.old event.now world.new (record { tracers = map (λ b. meaning b) tracers.old.items; drops = drops.old.items }) (record { tracers = map (λ b. meaning b) tracers.new.items; drops = drops.new.items }) (H.outside host.old) (H.outside host.new) result }
{
    append_line(event, host)?;
    if let Some(acted) = show(world, event, host)? {
        tell(&acted, tracers, drops);
    }
    Ok(())
}

/// Appends the line of an event to the journal.
fn append_line<H: Host>(event: &Event, host: &mut H) -> Result<(), WriteFail>
    requires making { IsSome (H.outside host.old).making }
    requires line { HasLine event.now }
    ensures { Appends (H.outside host.old) (H.outside host.new) (event_line event.now) result }
{
    let mut line = Line::new();
    line_of(event, &mut line);
    host.append(&line)
}
