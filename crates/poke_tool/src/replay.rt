//! The command `replay`: the trace of a journal.
ghost use Rattle.std.specs.Prelude.{◌≡◌, map};
ghost use Rattle.poke_commands.specs.Command.{Replay as ReplayRow};
ghost use Rattle.poke_commands.specs.Feeding.{ReplayFeeds};
ghost use Rattle.poke_commands.specs.Runs.{Does};
ghost use Rattle.poke_commands.specs.Scripted.{ReplaysAs};
ghost use Rattle.script_runner.specs.World.{StandsFor};
ghost use Rattle.script_text.specs.Laws.{IsScriptOf};
ghost use Rattle.switching.specs.State.{first};

use crate::journal_file::read_journal;
use module_image::Image;
use poke_base::Host;
use poke_commands::module_file::read_module;
use poke_commands::script_file::read_script;
use poke_faults::Fault;
use script_runner::World;
use script_text::Script;
use std::alloc::Global;
use tracer_ops::Tracer;

/// Prints what each event of a journal shows, and at the end of the journal and of the script what the sites hold and what
/// became of the tracers, which are told of each call at a traced site. The module is read first, then the script, then the
/// journal, each once; no file is made.
///
/// # Errors
/// `Read`, `Refused` for the first thing that is wrong with the module, with the script or with the journal's length, or
/// `Memory`: nothing was printed, and the tracers are as before. `Refused` for the journal's first line that can't be: what the
/// events before it show was printed, and the tracers were told of them. `Write`: a prefix of the text was printed.
pub fn replay<H: Host>(
    alloc: Global,
    module_name: &str,
    script_name: &str,
    journal_name: &str,
    host: &mut H,
    tracers: &mut Vec<Box<dyn Tracer>>,
) -> Result<(), Fault>
    ensures does { Does (ReplayRow module_name.now script_name.now journal_name.now) (H.outside host.old) (H.outside host.new) result }
    ensures feeds { ReplayFeeds module_name.now script_name.now journal_name.now (map (λ b. meaning b) tracers.old.items) (map (λ b. meaning b) tracers.new.items) (H.outside host.old) (H.outside host.new) result }
{
    let image = read_module(alloc, module_name, host)?;
    let script = read_script(alloc, script_name, &image, host)?;
    let journal = read_journal(alloc, journal_name, host)?;
    replay_script(alloc, image, script, &journal, host, tracers)
}

/// Replays a journal of a script of a module.
///
/// # Errors
/// `Memory`: nothing was done. `Refused` for the journal's first line that can't be, `Write`: as `replay` has it.
fn replay_script<H: Host>(
    alloc: Global,
    image: Image,
    script: Script,
    journal: &[u8],
    host: &mut H,
    tracers: &mut Vec<Box<dyn Tracer>>,
) -> Result<(), Fault>
    requires { IsScriptOf image script }
    ensures { ReplaysAs image script journal.now (map (λ b. meaning b) tracers.old.items) (map (λ b. meaning b) tracers.new.items) (H.outside host.old) (H.outside host.new) result }
{
    let mut world = World::new(alloc, image, script)?;
    replay_world(&mut world, journal, host, tracers)
}

/// Replays a journal on a world.
///
/// # Errors
/// `Refused` for the journal's first line that can't be, `Write`: as `replay` has it.
fn replay_world<H: Host>(
    world: &mut World,
    journal: &[u8],
    host: &mut H,
    tracers: &mut Vec<Box<dyn Tracer>>,
) -> Result<(), Fault>
    requires { StandsFor world.old (first world.old.image world.old.script) }
    ensures { ReplaysAs world.old.image world.old.script journal.now (map (λ b. meaning b) tracers.old.items) (map (λ b. meaning b) tracers.new.items) (H.outside host.old) (H.outside host.new) result }
{
    recorded_run::replay(world, journal, host, tracers)?;
    Ok(())
}
