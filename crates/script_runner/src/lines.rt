//! The lines that events show.
ghost use Rattle.std.specs.Prelude.{◌≡◌, ◌≤◌, ◌+◌, ◌++◌, [], ◌∷◌, length};
ghost use Rattle.arrayvec.specs.ArrayVec.{array_vec_len};
ghost use Rattle.key_state.specs.Outcome.{Returns};
ghost use Rattle.key_state.specs.OutcomeLine.{outcome_line};
ghost use Rattle.script_runner.specs.TraceText.{begin_line, drop_line, trace_text};
ghost use Rattle.script_runner.specs.Updating.{begun_lines};
ghost use Rattle.switching.specs.Said.{said_handled, said_stepped};

use crate::updater::Begun;
use cpu_core::{Stepped, put_mark, put_pass, put_stop};
use int3_handler::Handled;
use key_state::{Outcome, outcome_line};
use poke_base::{Line, put_dec, put_text};
use x64_subset::{Insn, Life};

/// Puts what the beginning of an update shows, by the update's number, into an empty line.
#[tactic(auto, using(crate::proofs::Texts::one_line))]
pub fn put_begun(line: &mut Line, update: u32, begun: &Begun)
    requires empty { line.old.items ≡ [] }
    ensures { line.new.items ≡ trace_text (begun_lines update begun.now) }
{
    match begun {
        Begun::Ended(outcome) => put_text(line, &outcome_line(update, outcome)),
        Begun::Open(sites) => put_open(line, update, *sites),
    }
}

/// Puts the line of an update that is open into an empty line.
#[tactic(auto, using(poke_base::proofs::Numbers::line_room))]
fn put_open(line: &mut Line, update: u32, sites: u32)
    requires empty { line.old.items ≡ [] }
    ensures { line.new.items ≡ begin_line update sites }
{
    put_text(line, b"update ");
    put_dec(line, u64::from(update));
    put_text(line, b" begin ");
    put_dec(line, u64::from(sites));
    put_text(line, b"\n");
}

/// Puts the line of an update that returns, with n sites changed, into an empty line.
pub fn put_returned(line: &mut Line, update: u32, sites: u32)
    requires empty { line.old.items ≡ [] }
    ensures { line.new.items ≡ outcome_line update (Returns sites) }
{
    put_text(line, &outcome_line(update, &Outcome::Done(sites)));
}

/// Puts the line of a tracer that is dropped into an empty line.
#[tactic(auto, using(poke_base::proofs::Numbers::line_room))]
pub fn put_drop(line: &mut Line, place: u8)
    requires empty { line.old.items ≡ [] }
    ensures { line.new.items ≡ drop_line place }
{
    put_text(line, b"drop ");
    put_dec(line, u64::from(place));
    put_text(line, b"\n");
}

/// Puts what a turn without the handler shows into an empty line, of a processor, by its number, that then is in this state.
#[tactic(auto, using(crate::proofs::Texts::mark_text, crate::proofs::Texts::pass_text, crate::proofs::Texts::stop_text))]
pub fn put_stepped(line: &mut Line, cpu: u8, life: Life, stepped: &Stepped)
    requires empty { line.old.items ≡ [] }
    requires known { cpu ≤ 15 }
    ensures { line.new.items ≡ trace_text (said_stepped cpu life stepped.now) }
{
    match *stepped {
        Stepped::Plain(mark) => put_mark(line, cpu, mark, life),
        Stepped::Pass { at, insn, mark } => {
            put_pass(line, cpu, at, &insn);
            put_mark(line, cpu, mark, life);
        }
        Stepped::Trapped => {}
        Stepped::Torn => put_stop(line, cpu, life),
    }
}

/// Puts what the handler shows into an empty line, of a processor, by its number, that then is in this state.
#[tactic(auto, using(crate::proofs::Texts::mark_text, crate::proofs::Texts::pass_text, crate::proofs::Texts::stop_text))]
pub fn put_handled(line: &mut Line, cpu: u8, life: Life, handled: &Handled)
    requires empty { line.old.items ≡ [] }
    requires known { cpu ≤ 15 }
    ensures { line.new.items ≡ trace_text (said_handled cpu life handled.now) }
{
    match *handled {
        Handled::Emulated { at, form, mark } => {
            put_pass(line, cpu, at, &Insn::from(form));
            put_mark(line, cpu, mark, life);
        }
        Handled::NotOurs => put_stop(line, cpu, life),
    }
}
