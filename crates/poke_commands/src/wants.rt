//! The command `wants`: how the updates of a script end, and what its module's sites then hold.
ghost use Rattle.std.specs.Prelude.{◌≡◌, ◌≤◌, ◌++◌, length, map};
ghost use Rattle.key_state.specs.Outcome.{ending_of};
ghost use Rattle.poke_base.specs.Host.{Prints};
ghost use Rattle.module_image.specs.SiteLine.{site_lines};
ghost use Rattle.poke_commands.specs.Command.{Wants as WantsRow};
ghost use Rattle.poke_commands.specs.Runs.{Does};
ghost use Rattle.poke_commands.specs.Scripted.{PrintsAs};
ghost use Rattle.poke_commands.specs.Wants.{IsWantsText, outcome_lines};
ghost use Rattle.script_text.specs.Laws.{IsScriptOf};
ghost use Rattle.script_text.specs.Script.{most_updates};

use crate::dry_run::DryRun;
use crate::module_file::read_module;
use crate::script_file::read_script;
use crate::site_lines::print_sites;
use key_state::{Outcome, outcome_line};
use module_image::Image;
use poke_base::{Host, WriteFail};
use poke_faults::Fault;
use script_text::Script;
use std::alloc::Global;

/// Prints how each update of a script ends, a line each, and then what the sites of its module hold after all of them, a
/// line each. No processor runs: `run` and `drop` lines are passed over. The module is read first, then the script, each
/// once, and no other file is.
///
/// # Errors
/// `Read`, `Refused` for the first thing that is wrong with the module or with the script, or `Memory`: nothing was
/// printed. `Write`: a prefix of the text was printed.
pub fn wants<H: Host>(
    alloc: Global,
    module_name: &str,
    script_name: &str,
    host: &mut H,
) -> Result<(), Fault>
    ensures { Does (WantsRow module_name.now script_name.now) (H.outside host.old) (H.outside host.new) result }
{
    let image = read_module(alloc, module_name, host)?;
    let script = read_script(alloc, script_name, &image, host)?;
    print_wants(alloc, &image, &script, host)
}

/// Prints how each update of a script of a module ends, and what the sites then hold.
///
/// # Errors
/// `Memory`: nothing was printed. `Write`: a prefix of the text was printed.
fn print_wants<H: Host>(
    alloc: Global,
    image: &Image,
    script: &Script,
    host: &mut H,
) -> Result<(), Fault>
    requires { IsScriptOf image.now script.now }
    ensures { PrintsAs (IsWantsText image.now script.now) (H.outside host.old) (H.outside host.new) result }
{
    let dry_run = DryRun::of(alloc, image, script)?;
    print_run(image, &dry_run, host)?;
    Ok(())
}

/// Prints how updates ended, and what the sites then hold.
fn print_run<H: Host>(image: &Image, run: &DryRun, host: &mut H) -> Result<(), WriteFail>
    requires few { length run.now.outcomes.items ≤ most_updates }
    requires same_length { length run.now.settled.text ≡ length image.now.text }
    ensures { Prints (H.outside host.old) (H.outside host.new) (outcome_lines 1 (map ending_of run.now.outcomes.items) ++ site_lines image.now.base run.now.settled.text image.now.sites) result }
{
    print_outcomes(&run.outcomes, host)?;
    print_sites(image, run.settled.text(), host)
}

/// Prints how updates ended, a line each, by their numbers.
pub fn print_outcomes<H: Host>(outcomes: &[Outcome], host: &mut H) -> Result<(), WriteFail>
    requires { length outcomes.now ≤ most_updates }
    ensures { Prints (H.outside host.old) (H.outside host.new) (outcome_lines 1 (map ending_of outcomes.now)) result }
{
    for (place, outcome) in outcomes.iter().enumerate() {
        host.print(&outcome_line(place as u32 + 1, outcome))?;
    }
    Ok(())
}
