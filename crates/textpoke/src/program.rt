//! The program over a host: from the arguments to the exit code.
ghost use Rattle.std.specs.Prelude.{◌≡◌, Err, IfOk, OnErr};
ghost use Rattle.std.specs.Process.{exit_status};
ghost use Rattle.poke_tool.specs.Words.{words_of};
ghost use Rattle.poke_commands.specs.Runs.{Ends};
ghost use Rattle.poke_tool.specs.Runs.{Runs};
ghost use Rattle.textpoke.specs.Program.{Gives, RunsProgram, RunsWords, after_name, args_fault};

use live_engine::OpenGate;
use poke_base::Host;
use poke_tool::{Fault, textpoke};
use std::alloc::{AllocError, Global};
use std::env::Args;
use std::io;
use std::io::ErrorKind;
use std::process::ExitCode;
use std::thread::Threads;
use tracer_ops::{Count, LastSites, Tracer};

/// Does the command that the arguments after the program's name are. The exit code is the status that
/// `textpoke` answered.
///
/// Where the arguments weren't read or there was no memory for them or for the tracers, that is reported, and the exit
/// code is the status of that fault: 1 for an argument that isn't UTF-8, 7 for out of memory.
pub fn run<R: Threads + AllocGlobal + Sync, H: Host>(
    rt: &R,
    args: io::Result<Args>,
    host: &mut H,
) -> ExitCode
    ensures { RunsProgram args (H.outside host.old) (H.outside host.new) (exit_status result) }
{
    match words(rt.alloc(), args) {
        Ok(words) => ExitCode::from(do_words(rt, &words, host)),
        Err(fault) => ExitCode::from(report(fault, host)),
    }
}

/// Does the command that the words are; where there is no memory for its tracers, that is reported.
fn do_words<R: Threads + AllocGlobal + Sync, H: Host>(rt: &R, words: &[String], host: &mut H) -> u8
    ensures { RunsWords (words_of words.now) (H.outside host.old) (H.outside host.new) result }
{
    match do_traced(rt, words, host) {
        Ok(status) => status,
        Err(_) => report(Fault::Memory, host),
    }
}

/// Does the command that the words are, with tracers of its own: one that counts, and one that keeps the last sites too. No
/// worker is held.
///
/// # Errors
/// Out of memory; nothing was done.
fn do_traced<R: Threads + AllocGlobal + Sync, H: Host>(
    rt: &R,
    words: &[String],
    host: &mut H,
) -> Result<u8, AllocError>
    ensures runs { IfOk result (Runs (words_of words.now) (H.outside host.old) (H.outside host.new)) }
    ensures nothing { OnErr result (H.outside host.new ≡ H.outside host.old) }
{
    let alloc = rt.alloc();
    let mut tracers: Vec<Box<dyn Tracer>> = Vec::new(alloc);
    tracers.push(Box::new(alloc, Count::new())?)?;
    tracers.push(Box::new(alloc, LastSites::new())?)?;
    Ok(textpoke(rt, words, host, &mut tracers, &OpenGate))
}

/// Reports a fault, and answers its status, whether the complaint goes out or not.
fn report<H: Host>(fault: Fault, host: &mut H) -> u8
    ensures { Ends (H.outside host.old) (H.outside host.new) (Err fault) result }
{
    let _ = host.complain(&fault.complaint());
    fault.status()
}

/// The words of the command: the arguments after the program's name.
///
/// # Errors
/// `Words` where the arguments weren't read, as one of them isn't UTF-8; `Memory` where there was no
/// memory for them.
fn words(alloc: Global, args: io::Result<Args>) -> Result<Vec<String>, Fault>
    ensures { Gives args result }
{
    match args {
        Ok(args) => match after_name(alloc, args) {
            Ok(words) => Ok(words),
            Err(_) => Err(Fault::Memory),
        },
        Err(why) => Err(args_fault(why.kind())),
    }
}

/// The arguments but the first.
fn after_name(alloc: Global, args: Args) -> Result<Vec<String>, AllocError>
    ensures { IfOk result (λ words. words.items ≡ after_name args) }
{
    args.skip(1).collect(alloc)
}

/// The fault that comes of arguments that weren't read.
fn args_fault(why: ErrorKind) -> Fault
    ensures { result ≡ args_fault why }
{
    match why {
        ErrorKind::OutOfMemory => Fault::Memory,
        _ => Fault::Words,
    }
}
