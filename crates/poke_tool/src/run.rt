//! The command `run`: a script runs, and its run is recorded.
ghost use Rattle.std.specs.Prelude.{◌≡◌, map};
ghost use Rattle.poke_commands.specs.Command.{Run as RunRow};
ghost use Rattle.poke_commands.specs.Feeding.{RunFeeds};
ghost use Rattle.poke_commands.specs.Runs.{Does};
ghost use Rattle.poke_commands.specs.Scripted.{RunsAs};
ghost use Rattle.script_runner.specs.World.{StandsFor};
ghost use Rattle.script_text.specs.Laws.{IsScriptOf};
ghost use Rattle.switching.specs.State.{first};

use module_image::Image;
use poke_base::Host;
use poke_commands::module_file::read_module;
use poke_commands::script_file::read_script;
use poke_faults::Fault;
use script_runner::{Words, World};
use script_text::Script;
use std::alloc::Global;
use tracer_ops::Tracer;

/// Runs a script of a module by the words of a seed. It prints what each event shows, and then what the sites hold and what
/// became of the tracers, which are told of each call at a traced site; the journal of the events is written to a file that is
/// made for it. The module is read first, then the script, each once; the journal is made when both are accepted and there
/// is memory for the run.
///
/// # Errors
/// `Read`, `Refused` for the first thing that is wrong with the module or with the script, or `Memory`: nothing was
/// printed, no file was made, and the tracers are as before. `Write`: the journal wasn't made, or a prefix of it was
/// written, with the trace of the events whose lines were written before, or a prefix of it; the tracers were told of those
/// whose lines were printed.
pub fn run<H: Host>(
    alloc: Global,
    module_name: &str,
    script_name: &str,
    journal_name: &str,
    seed: u64,
    host: &mut H,
    tracers: &mut Vec<Box<dyn Tracer>>,
) -> Result<(), Fault>
    ensures does { Does (RunRow module_name.now script_name.now journal_name.now seed) (H.outside host.old) (H.outside host.new) result }
    ensures feeds { RunFeeds module_name.now script_name.now journal_name.now seed (map (λ b. meaning b) tracers.old.items) (map (λ b. meaning b) tracers.new.items) (H.outside host.old) (H.outside host.new) result }
{
    let image = read_module(alloc, module_name, host)?;
    let script = read_script(alloc, script_name, &image, host)?;
    run_script(alloc, image, script, journal_name, seed, host, tracers)
}

/// Runs a script of a module by the words of a seed, and makes the file for its journal where there is memory for the run.
///
/// # Errors
/// `Memory`: nothing was done. `Write`: as `run` has it.
fn run_script<H: Host>(
    alloc: Global,
    image: Image,
    script: Script,
    journal_name: &str,
    seed: u64,
    host: &mut H,
    tracers: &mut Vec<Box<dyn Tracer>>,
) -> Result<(), Fault>
    requires { IsScriptOf image script }
    ensures { RunsAs image script journal_name.now seed (map (λ b. meaning b) tracers.old.items) (map (λ b. meaning b) tracers.new.items) (H.outside host.old) (H.outside host.new) result }
{
    let mut world = World::new(alloc, image, script)?;
    run_world(&mut world, journal_name, seed, host, tracers)
}

/// Makes the file for the journal, and runs a world by the words of a seed.
///
/// # Errors
/// `Write`: as `run` has it.
fn run_world<H: Host>(
    world: &mut World,
    journal_name: &str,
    seed: u64,
    host: &mut H,
    tracers: &mut Vec<Box<dyn Tracer>>,
) -> Result<(), Fault>
    requires first { StandsFor world.old (first world.old.image world.old.script) }
    requires idle { world.old.idle ≡ 0 }
    ensures { RunsAs world.old.image world.old.script journal_name.now seed (map (λ b. meaning b) tracers.old.items) (map (λ b. meaning b) tracers.new.items) (H.outside host.old) (H.outside host.new) result }
{
    let mut words = Words::from_seed(seed);
    host.make_file(journal_name)?;
    recorded_run::run(world, &mut words, host, tracers)?;
    Ok(())
}
