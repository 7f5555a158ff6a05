//! The breakpoint handler (Linux `arch/x86/kernel/alternative.c`, `poke_int3_handler`).
ghost use Rattle.std.specs.Prelude.{◌≡◌, ◌≤◌, ◌↔◌, None};
ghost use Rattle.x64_subset.specs.declared.proc.Life.TheVariants.{Running};
ghost use Rattle.x64_subset.specs.Whole.{name_len, whole};
ghost use Rattle.poke_batch.specs.Walk.{open_form};
ghost use Rattle.int3_handler.specs.Handler.{answer, breakpoint_of, handled};

use insn_forms::Form;
use poke_batch::Batch;
use x64_subset::{FaultKind, Insn, Life, Mark, Proc, execute};

/// What the handler did.
#[derive(Clone, Copy, Debug, PartialEq, Eq)]
pub enum Handled {
    /// A site of the open chunk begins at the address `at`: its new form was done whole.
    Emulated { at: u64, form: Form, mark: Mark },
    /// No site of the open chunk begins there.
    NotOurs,
}

/// How many bytes the first instruction of a form has: all of its bytes, but one of RET, whose other
/// bytes fill the site.
fn name_len(form: &Form) -> u8
    ensures { result ≡ name_len form.now }
{
    match form {
        Form::Ret => 1,
        Form::Nop2 | Form::Jmp8(_) | Form::Nop5 | Form::Jmp32(_) | Form::Call(_) => form.size(),
    }
}

/// Does the form of a site at the address `at` as one instruction, wherever the processor stands, and
/// says what that shows outside.
///
/// The processor goes on where the instruction at `at` leads: after it, at its target, or where it
/// returns to; a call pushes the address after it, `at + 5`. Addresses wrap modulo 2^64. Where the
/// processor ends, as at a call with 64 return addresses or a return with none, it stands where it
/// stood, and the mark is `Ended`.
///
/// The processor has to be running, and has at most 64 return addresses, before and after.
#[tactic(auto, unfolding(x64_subset::specs::Whole::whole))]
pub fn emulate(form: &Form, at: u64, proc: &mut Proc) -> Mark
    requires running { proc.old.life ≡ Running }
    requires depth { proc.old.depth ≤ 64 }
    ensures proc { proc.new ≡ (whole form.now at proc.old).0 }
    ensures mark { result ≡ (whole form.now at proc.old).1 }
    ensures depth { proc.new.depth ≤ 64 }
{
    let stood = proc.ip;
    proc.ip = at;
    let mark = execute(&Insn::from(*form), name_len(form), proc);
    if let Mark::Ended = mark {
        proc.ip = stood;
    }
    mark
}

/// Handles the breakpoint that a processor has hit, which stands one byte before it: where a site of
/// the open chunk begins there, the site's new form is done whole; else the processor ends in the
/// fault `Breakpoint`, and is otherwise as before. The batch stays as it is, whatever is due.
///
/// The processor has to be running, and has at most 64 return addresses, before and after. The rule is
/// that of Linux's `poke_int3_handler`.
pub fn handle(batch: &Batch, proc: &mut Proc) -> Handled
    requires running { proc.old.life ≡ Running }
    requires depth { proc.old.depth ≤ 64 }
    ensures proc { proc.new ≡ handled batch.now.update proc.old }
    ensures answer { result ≡ answer batch.now.update proc.old }
    ensures depth { proc.new.depth ≤ 64 }
    ensures not_ours { (result ≡ Handled.NotOurs) ↔ (open_form batch.now.update (breakpoint_of proc.old) ≡ None) }
{
    let at = proc.ip.wrapping_sub(1);
    match batch.find(at) {
        Some((form, _)) => Handled::Emulated {
            at,
            form,
            mark: emulate(&form, at, proc),
        },
        None => {
            proc.life = Life::Fault(FaultKind::Breakpoint);
            Handled::NotOurs
        }
    }
}
