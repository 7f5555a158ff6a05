//! Commands that the whole program is tried on, over a host in memory.
#![tactic(auto)]

ghost use Rattle.std.specs.Prelude.{◌≡◌, IfOk, map};
ghost use Rattle.poke_base.specs.MemoryHost.{outside_of};
ghost use Rattle.poke_tool.specs.Runs.{Runs};
ghost use Rattle.poke_tool.specs.Words.{words_of};

use live_engine::OpenGate;
use poke_base::{MemoryHost, NoMemory};
use poke_tool::textpoke;
use small_module::Small;
use std::alloc::Global;
use std::thread::Threads;

/// The words of a command.
///
/// # Errors
/// Out of memory.
pub fn words(alloc: Global, list: &[&str]) -> Result<Vec<String>, NoMemory>
    ensures { IfOk result (λ words. words_of words.items ≡ map (λ word. word.now) list.now) }
{
    let mut words = Vec::new(alloc);
    for word in list {
        words.push(String::from_str(alloc, word)?)?;
    }
    Ok(words)
}

/// Gives a host a module `m` and a script `s` of it.
///
/// # Errors
/// Out of memory.
pub fn put_script(
    alloc: Global,
    host: &mut MemoryHost,
    small: &Small<'_>,
    script: &[u8],
) -> Result<(), NoMemory> {
    let module = small.file(alloc)?;
    host.put("m", &module)?;
    host.put("s", script)
}

/// Runs the words of a command over a host, without a tracer, and answers the status.
///
/// # Errors
/// Out of memory for the words.
pub fn status_of<R: AllocGlobal + Threads + Sync>(
    rt: &R,
    host: &mut MemoryHost,
    list: &[&str],
) -> Result<u8, NoMemory>
    ensures { IfOk result (λ status. Runs (map (λ word. word.now) list.now) (outside_of host.old) (outside_of host.new) status) }
{
    let words = words(rt.alloc(), list)?;
    let mut tracers = Vec::new(rt.alloc());
    Ok(textpoke(rt, &words, host, &mut tracers, &OpenGate))
}

/// Gives a host a file `m`, runs `check` on it, and answers the status.
///
/// # Errors
/// Out of memory for the file or the words.
pub fn check_on<R: AllocGlobal + Threads + Sync>(
    rt: &R,
    host: &mut MemoryHost,
    file: &[u8],
) -> Result<u8, NoMemory> {
    host.put("m", file)?;
    status_of(rt, host, &["check", "m"])
}
