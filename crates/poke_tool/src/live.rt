//! The command `live`: a script runs on threads, with each processor on one of its own.
ghost use Rattle.std.specs.Prelude.{◌≡◌, ◌≤◌, ◌++◌, ℕ, length, map};
ghost use Rattle.key_state.specs.Outcome.{HoldsWanted, ending_of};
ghost use Rattle.live_engine.specs.LiveRun.{IsRunOf};
ghost use Rattle.live_trace.specs.WalkText.{walks_text};
ghost use Rattle.module_image.specs.SiteLine.{site_lines};
ghost use Rattle.poke_base.specs.Host.{Prints};
ghost use Rattle.poke_commands.specs.Command.{Live as LiveRow};
ghost use Rattle.poke_commands.specs.Live.{IsLiveText};
ghost use Rattle.poke_commands.specs.Runs.{Does};
ghost use Rattle.poke_commands.specs.Scripted.{PrintsAs};
ghost use Rattle.poke_commands.specs.Wants.{last_states, outcome_lines};
ghost use Rattle.script_text.specs.Laws.{IsScriptOf};
ghost use Rattle.script_text.specs.Script.{most_updates};

use live_engine::{Gate, LiveRun, run_live};
use live_trace::laws::updated_sites_are_wanted;
use live_trace::{print_live_sites, print_walks};
use module_image::Image;
use poke_base::{Host, WriteFail};
use poke_commands::dry_run::DryRun;
use poke_commands::module_file::read_module;
use poke_commands::script_file::read_script;
use poke_commands::wants::print_outcomes;
use poke_faults::Fault;
use script_text::Script;
use std::thread::Threads;

/// Runs a script of a module on threads: one patches, and beside it each processor does so many turns on its own, by words of
/// the seed and its number. Every worker passes the gate before each of its turns. It prints how each update ends, a line each;
/// then what each processor did, with the version of each site that it passed; and then what the sites hold after all updates.
/// The module is read first, then the script, each once, and no other file is.
///
/// # Errors
/// `Read`, `Refused` for the first thing that is wrong with the module or with the script, or `Memory`: nothing was printed.
/// `Write`: a prefix of the text was printed.
pub fn live<R: Threads + AllocGlobal + Sync, H: Host, G: Gate + Sync>(
    rt: &R,
    module_name: &str,
    script_name: &str,
    turns: u32,
    seed: u64,
    host: &mut H,
    gate: &G,
) -> Result<(), Fault>
    ensures { Does (LiveRow module_name.now script_name.now turns seed) (H.outside host.old) (H.outside host.new) result }
{
    let alloc = rt.alloc();
    let image = read_module(alloc, module_name, host)?;
    let script = read_script(alloc, script_name, &image, host)?;
    live_script(rt, &image, &script, turns, seed, host, gate)
}

/// Runs a script of a module on threads, and prints what comes of it.
///
/// # Errors
/// `Memory`: nothing was printed. `Write`: a prefix of the text was printed.
fn live_script<R: Threads + AllocGlobal + Sync, H: Host, G: Gate + Sync>(
    rt: &R,
    image: &Image,
    script: &Script,
    turns: u32,
    seed: u64,
    host: &mut H,
    gate: &G,
) -> Result<(), Fault>
    requires { IsScriptOf image.now script.now }
    ensures { PrintsAs (IsLiveText image.now script.now turns) (H.outside host.old) (H.outside host.new) result }
{
    let alloc = rt.alloc();
    let dry_run = DryRun::of(alloc, image, script)?;
    let run = run_live(rt, alloc, image, script, turns, seed, gate)?;
    print_live(image, script, &dry_run, &run, host)?;
    Ok(())
}

/// Prints how updates ended, what the processors did, and what the sites then hold.
fn print_live<H: Host>(
    image: &Image,
    script: &Script,
    dry_run: &DryRun,
    run: &LiveRun,
    host: &mut H,
) -> Result<(), WriteFail>
    requires of { IsScriptOf image.now script.now }
    requires run { (turns : ℕ) × IsRunOf image.now script.now turns run.now }
    requires few { length dry_run.now.outcomes.items ≤ most_updates }
    requires settled { HoldsWanted image.now (last_states image.now script.now) dry_run.now.settled.text }
    ensures { Prints (H.outside host.old) (H.outside host.new) (outcome_lines 1 (map ending_of dry_run.now.outcomes.items) ++ (walks_text image.now 0 script.now.entries (map (λ walk. walk.items) run.now.walks.items) ++ site_lines image.now.base dry_run.now.settled.text image.now.sites)) result }
{
    image.accepted();
    updated_sites_are_wanted();
    print_outcomes(&dry_run.outcomes, host)?;
    print_walks(image, script.entries(), &run.walks, host)?;
    print_live_sites(image, &run.sites, host)
}
