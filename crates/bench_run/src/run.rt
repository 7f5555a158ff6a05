//! The run of a generated module.
ghost use Rattle.std.specs.Prelude.{◌≡◌, ◌≤◌, IfOk, Ok};
ghost use Rattle.generated_module.specs.Bench.{bench_script, bench_value};
ghost use Rattle.module_image.specs.Module.{IsAccepted};
ghost use Rattle.script_runner.specs.World.{StandsFor};
ghost use Rattle.script_text.specs.Laws.{IsScriptOf};
ghost use Rattle.script_text.specs.Script.{script};
ghost use Rattle.switching.specs.State.{first};
ghost use Rattle.bench_run.specs.Bench.{IsBench};
ghost use Rattle.bench_run.specs.Run.{IsOfBlocks, IsRun};

use crate::Counts;
use elf_build::{generated, write};
use elf_module::ElfFile;
use module_image::{Image, Refused};
use poke_base::{Line, NoMemory};
use script_runner::{Words, World};
use script_text::{Script, ScriptError};
use std::alloc::Global;
use switching::choice_laws::chosen_prefixes_end;
use switching::laws::traces_are_switched;

/// Two processors that run before, between and after updates of all keys and of all trace sites.
const SCRIPT: &[u8] =
    b"cpu main\ncpu main\nrun 100\ninc jk0\ntrace *\nrun 100\ncall ca fb\ncall cb -\ndec jk1\nuntrace *\ncall ca -\nrun 100\n";

/// Runs a module with 10 to 1,000 blocks by a fixed script, and counts what happens. The module is written, read and accepted,
/// and its events are chosen by the words of a seed, so that the same blocks and seed give the same counts. No file is made, and
/// nothing is printed.
///
/// # Errors
/// Out of memory, and nothing else: each such module is read and accepted, and the script is read in it.
pub fn bench(alloc: Global, blocks: u32, seed: u64) -> Result<Counts, NoMemory>
    requires few { 10 ≤ blocks }
    requires many { blocks ≤ 1000 }
    ensures { IfOk result (IsBench blocks seed) }
{
    let image = generated_image(alloc, blocks)?;
    let script = read_script(alloc, &image)?;
    let mut world = World::new(alloc, image, script)?;
    let mut words = Words::from_seed(seed);
    Ok(run(&mut world, &mut words))
}

/// The module with some blocks: its file is written, read and accepted.
///
/// # Errors
/// Out of memory.
fn generated_image(alloc: Global, blocks: u32) -> Result<Image, NoMemory>
    requires few { 10 ≤ blocks }
    requires many { blocks ≤ 1000 }
    ensures made { IfOk result (IsOfBlocks blocks) }
    ensures script { IfOk result (λ m. script m bench_script ≡ Ok bench_value) }
{
    let plan = generated(alloc, blocks)?;
    let mut file = Vec::new(alloc);
    write(&plan, &mut file)?;
    let Ok(elf) = ElfFile::read(&file) else {
        // The file of a plan is one that is read.
        unreachable!()
    };
    match Image::accept(alloc, &elf) {
        Ok(image) => Ok(image),
        Err(why) => {
            // Nothing else is wrong with a module that is generated.
            prove!(why == Refused::NoMemory);
            Err(NoMemory)
        }
    }
}

/// The script in a module in which it is read.
///
/// # Errors
/// Out of memory.
fn read_script(alloc: Global, image: &Image) -> Result<Script, NoMemory>
    requires { script image.now bench_script ≡ Ok bench_value }
    ensures value { IfOk result (λ s. s ≡ bench_value) }
    ensures of { IfOk result (IsScriptOf image.now) }
{
    match Script::read(alloc, SCRIPT, image) {
        Ok(script) => Ok(script),
        Err(why) => {
            // No line of it is refused.
            prove!(why == ScriptError::NoMemory);
            Err(NoMemory)
        }
    }
}

/// Does the chosen events from the first one to the end of the script, of which no run has more than 8,106,496, and counts them.
fn run(world: &mut World, words: &mut Words) -> Counts
    requires accepted { IsAccepted world.old.image }
    requires of { IsScriptOf world.old.image world.old.script }
    requires first { StandsFor world.old (first world.old.image world.old.script) }
    requires idle { world.old.idle ≡ 0 }
    ensures { IsRun world.old.image world.old.script words.old result }
{
    chosen_prefixes_end();
    traces_are_switched();
    let mut counts = Counts::default();
    'events: while let Some(event) = world.choose(words) {
        let mut line = Line::new();
        // A chosen event may come, so it is done.
        let _ = world.act(&event, &mut line);
        counts.add(&event);
    }
    counts
}
