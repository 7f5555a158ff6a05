//! The running machine.
ghost use Rattle.std.specs.Prelude.{◌≡◌, ◌≤◌, IfOk, None, length, map};
ghost use Rattle.cpu_core.specs.Turn.{new_cpu};
ghost use Rattle.module_image.specs.Held.{first_states};

mod acts;
mod choosing;
mod events;
mod looks;
mod sites;

use crate::progress::Progress;
use crate::updater::Updater;
use cpu_core::Cpu;
use insn_forms::Changes;
use key_state::Keys;
use module_image::Image;
use poke_base::NoMemory;
use poke_batch::Batch;
use script_text::Script;
use stale_fetch::WindowText;
use std::alloc::Global;
use std::marker::Model;

/// A module and a script that run: how far the script has come, the keys, the open update, the processors and the text that
/// they fetch from.
///
/// It takes all its memory when it is made. An event takes time in the number of processors, but for the beginning of an update,
/// which looks at each site once; no event takes longer for a longer text or for more writes made before.
#[derive(Drop)]
pub struct World {
    image: Image,
    script: Script,
    progress: Progress,
    updater: Updater,
    cpus: Vec<Cpu>,
    text: WindowText,
    /// How many events have come since the last one of the patch; 16 stands for every greater number too.
    idle: u8,
}

impl Model for World {
    ghost use Rattle.script_runner.specs.World.{WorldSeen};

    ghost Value = { WorldSeen };

    ghost use Rattle.script_runner.specs.WorldInside.{seen, IsSound};

    ghost view = { seen };

    ghost invariant = { IsSound };
}

impl World {
    ghost use Rattle.std.specs.Prelude.{◌≡◌, IfOk};
    ghost use Rattle.script_runner.specs.World.{IsWorld, StandsFor};
    ghost use Rattle.script_text.specs.Laws.{IsScriptOf};
    ghost use Rattle.switching.specs.State.{first};

    /// A module and a script of it before the first event. It takes all the memory of a run.
    ///
    /// # Errors
    /// Out of memory; the module and the script are gone then.
    #[tactic(auto, using(crate::proofs::First::first_world, crate::proofs::First::first_stands))]
    pub fn new(alloc: Global, image: Image, script: Script) -> Result<World, NoMemory>
        requires { IsScriptOf image script }
        ensures image { IfOk result (λ world. world.image ≡ image) }
        ensures script { IfOk result (λ world. world.script ≡ script) }
        ensures idle { IfOk result (λ world. world.idle ≡ 0) }
        ensures first { IfOk result (λ world. StandsFor world (first world.image world.script)) }
    {
        image.accepted();
        let count = script.entries().len() as u8;
        let updater = new_updater(alloc, &image, count)?;
        let cpus = new_cpus(alloc, script.entries())?;
        let text = WindowText::new(alloc, image.base(), image.text(), count)?;
        Ok(World {
            image,
            script,
            progress: Progress { place: 0, turns: 0 },
            updater,
            cpus,
            text,
            idle: 0,
        })
    }

    /// A machine that is lent runs a script of its module, and stands for a state that a legal prefix leads to. It does nothing:
    /// its clause is what all laws of legal journals ask for.
    pub fn reached(&self)
        ensures { IsWorld self.now }
    {
        let _image = &self.image;
    }
}

/// The keys of a module as the file has them, no update, and room for any.
///
/// # Errors
/// Out of memory.
fn new_updater(alloc: Global, image: &Image, cpus: u8) -> Result<Updater, NoMemory>
    requires some { 1 ≤ cpus }
    requires most { cpus ≤ 16 }
    ensures keys { IfOk result (λ updater. updater.keys ≡ first_states image.now) }
    ensures room { IfOk result (λ updater. updater.changes.room ≡ length image.now.sites) }
    ensures batch { IfOk result (λ updater. updater.batch ≡ record { sites = length image.now.sites; cpus = cpus; update = None }) }
    ensures updates { IfOk result (λ updater. updater.updates ≡ 0) }
{
    let sites = image.sites().len() as u32;
    let keys = Keys::of(alloc, image)?;
    let changes = Changes::with_room(alloc, sites)?;
    let batch = Batch::new(alloc, sites, cpus)?;
    Ok(Updater {
        keys,
        changes,
        batch,
        updates: 0,
        sites: 0,
    })
}

/// Processors before their first instructions, each at its entry.
///
/// # Errors
/// Out of memory.
fn new_cpus(alloc: Global, entries: &[u64]) -> Result<Vec<Cpu>, NoMemory>
    ensures { IfOk result (λ cpus. cpus.items ≡ map new_cpu entries.now) }
{
    let cpus = entries.iter().map(|entry| Cpu::new(*entry)).collect(alloc)?;
    Ok(cpus)
}
