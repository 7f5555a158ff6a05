//! The whole program as one call.
ghost use Rattle.std.specs.Prelude.{◌≡◌, ◌≢◌, ◌↔◌, ℕ, List, None, Some, map};
ghost use Rattle.poke_base.specs.Host.{Rose};
ghost use Rattle.poke_commands.specs.Command.{Row, Make};
ghost use Rattle.poke_tool.specs.Words.{row, row_of, words_of};
ghost use Rattle.poke_commands.specs.Runs.{DoesRow, LeavesAll, MakesNothing};
ghost use Rattle.poke_tool.specs.Runs.{Runs};
ghost use Rattle.poke_tool.specs.Endings.{AsksInOrder, EndsAloud, EndsMaking, EndsSaying};
ghost use Rattle.poke_commands.specs.Feeding.{Feeds, FeedsTracers};
ghost use Rattle.poke_commands.specs.Headline.{AnyRun, IsShown, RunsProcessors, ShowsRun, ShowsWalks};
ghost use Rattle.recorded_run.specs.Headline.{EndsAsCommands, HoldsWhatIsWanted, IsSwitched, NeverOldAgain, OnlyNewAfterReturn, PassesWhole};

use crate::command::Command;
use crate::live::live;
use crate::replay::replay;
use crate::run::run;
use live_engine::Gate;
use poke_base::Host;
use poke_commands::bench::bench;
use poke_commands::check::check;
use poke_commands::make::make;
use poke_commands::plan::plan;
use poke_commands::show::show;
use poke_commands::wants::wants;
use poke_faults::Fault;
use std::thread::Threads;
use tracer_ops::Tracer;

/// Does the command that the words are, and answers the status with which the program ends. The
/// words don't have the program's name.
///
/// 0: done. 1: the words are no command. 2: the module was refused. 3: the plan or script file was refused.
/// 4: the journal was refused. 5: a file wasn't read. 6: a write failed. 7: out of memory. At every status but 0
/// the reason is reported in one line; a report that fails leaves the status as it is.
///
/// What a command does is what its files said before it (`Says`). At 0 all of that was printed and
/// made; at 2, 3 and 4 the file is refused for the reason that is reported; at 6 a prefix of what 0
/// prints was printed, and a file that is made is as before or holds a prefix. At 4 what the events before the line show
/// was printed; at every status but 0, 4 and 6 nothing was printed. At every status but 0 and 6 no file was made or changed.
///
/// The headline. At 0 `run` and `replay` have shown a run: their files hold an accepted module and a script of it, and the events
/// are legal, those that the seed chooses, whose journal is in the file that was made, or those of the journal that was read; and
/// their trace was printed. That trace is the one of a machine that knows whole instructions alone. Each pass through a site is
/// its whole old or whole new instruction; within one update no processor does the old one after the new; once the update has
/// returned, only the new one is done; at the end every site that isn't foreign holds what its key, target or trace state
/// prescribes; and the updates end as the script's commands do, whatever the processors did meanwhile.
///
/// `run` and `replay` tell the tracers that are handed in of each call at a traced site, after the event's lines were printed, and
/// drop those that the script drops; what each drop answered and what each tracer that is left has counted stands behind the
/// trace. At every status but 0, 4 and 6, and for every other command, they are as before.
///
/// At 0 `live` has printed a walk of each processor, beside which another thread patched the sites: each pass of a site is one
/// whole version of it, the one that the processor's last acknowledgement gives or the one after it, and neither goes back. Only
/// `live` takes threads from `rt`, and its workers alone pass the gate, before each turn that they do beside one another.
pub fn textpoke<R: Threads + AllocGlobal + Sync, H: Host, G: Gate + Sync>(
    rt: &R,
    words: &[String],
    host: &mut H,
    tracers: &mut Vec<Box<dyn Tracer>>,
    gate: &G,
) -> u8
    ensures runs { Runs (words_of words.now) (H.outside host.old) (H.outside host.new) result }

    ensures bad_words { (result ≡ 1) ↔ (row_of (words_of words.now) ≡ None) }
    ensures read_fault { result ≡ 5 → Rose (H.outside host.old).read_faults (H.outside host.new).read_faults }
    ensures write_fault { result ≡ 6 → Rose (H.outside host.old).write_faults (H.outside host.new).write_faults }
    ensures leaves_all { result ≢ 0 → result ≢ 4 → result ≢ 6 → LeavesAll (H.outside host.old) (H.outside host.new) }
    ensures makes_nothing { result ≢ 0 → result ≢ 6 → MakesNothing (H.outside host.old) (H.outside host.new) }
    ensures asks_in_order { AsksInOrder (row_of (words_of words.now)) (H.outside host.old) (H.outside host.new) result }
    ensures ends_aloud { EndsAloud (H.outside host.old) (H.outside host.new) result }

    ensures shows_a_run { result ≡ 0 → RunsProcessors (row_of (words_of words.now)) → ShowsRun (row_of (words_of words.now)) (H.outside host.old) (H.outside host.new) }
    ensures is_switched { (r : AnyRun) → IsShown (row_of (words_of words.now)) (H.outside host.old) (H.outside host.new) r → IsSwitched r.m r.script r.events }
    ensures passes_whole { (r : AnyRun) → IsShown (row_of (words_of words.now)) (H.outside host.old) (H.outside host.new) r → PassesWhole r.m r.script r.events }
    ensures never_old_again { (r : AnyRun) → IsShown (row_of (words_of words.now)) (H.outside host.old) (H.outside host.new) r → NeverOldAgain r.m r.script r.events }
    ensures only_new_after_return { (r : AnyRun) → IsShown (row_of (words_of words.now)) (H.outside host.old) (H.outside host.new) r → OnlyNewAfterReturn r.m r.script r.events }
    ensures holds_what_is_wanted { (r : AnyRun) → IsShown (row_of (words_of words.now)) (H.outside host.old) (H.outside host.new) r → HoldsWhatIsWanted r.m r.script r.events }
    ensures ends_as_commands { (r : AnyRun) → IsShown (row_of (words_of words.now)) (H.outside host.old) (H.outside host.new) r → EndsAsCommands r.m r.script r.events }

    ensures shows_walks { result ≡ 0 → ShowsWalks (row_of (words_of words.now)) (H.outside host.old) (H.outside host.new) }

    ensures feeds { FeedsTracers (row_of (words_of words.now)) (map (λ b. meaning b) tracers.old.items) (map (λ b. meaning b) tracers.new.items) (H.outside host.old) (H.outside host.new) result }

    ensures says { (row : Row) → row_of (words_of words.now) ≡ Some row → EndsSaying row (H.outside host.old) (H.outside host.new) result }
    ensures makes { (n : ℕ) (name : List ℕ) → row_of (words_of words.now) ≡ Some (Make n name) → EndsMaking n name (H.outside host.old) (H.outside host.new) result }
{
    match do_command(rt, words, host, tracers, gate) {
        Ok(()) => 0,
        Err(fault) => {
            // The status says why, whether the report goes out or not.
            let _ = host.complain(&fault.complaint());
            fault.status()
        }
    }
}

/// Does the command that the words are.
fn do_command<R: Threads + AllocGlobal + Sync, H: Host, G: Gate + Sync>(
    rt: &R,
    words: &[String],
    host: &mut H,
    tracers: &mut Vec<Box<dyn Tracer>>,
    gate: &G,
) -> Result<(), Fault>
    ensures does { DoesRow (row_of (words_of words.now)) (H.outside host.old) (H.outside host.new) result }
    ensures feeds { Feeds (row_of (words_of words.now)) (map (λ b. meaning b) tracers.old.items) (map (λ b. meaning b) tracers.new.items) (H.outside host.old) (H.outside host.new) result }
{
    let alloc = rt.alloc();
    match Command::read(words) {
        None => Err(Fault::Words),
        Some(Command::Plan { file }) => plan(alloc, file, host),
        Some(Command::Show { module }) => show(alloc, module, host),
        Some(Command::Check { module }) => check(alloc, module, host),
        Some(Command::Make { blocks, module }) => make(alloc, blocks, module, host),
        Some(Command::Wants { module, script }) => wants(alloc, module, script, host),
        Some(
            Command::Run {
                module,
                script,
                journal,
                seed,
            },
        ) => run(alloc, module, script, journal, seed, host, tracers),
        Some(
            Command::Replay {
                module,
                script,
                journal,
            },
        ) => replay(alloc, module, script, journal, host, tracers),
        Some(Command::Bench { blocks, seed }) => bench(alloc, blocks, seed, host),
        Some(
            Command::Live {
                module,
                script,
                turns,
                seed,
            },
        ) => live(rt, module, script, turns, seed, host, gate),
    }
}
