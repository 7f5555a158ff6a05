//! The poke of a plan's change: what is due, done and printed.
ghost use Rattle.std.specs.Prelude.{◌≡◌, ◌∷◌, [], IfOk};
ghost use Rattle.std.specs.List.{flat_map};
ghost use Rattle.poke_base.specs.Host.{Prints};
ghost use Rattle.insn_forms.specs.Write.{Write};
ghost use Rattle.poke_batch.specs.Poke.{items};
ghost use Rattle.poke_batch.specs.Poke.Item.{Puts, Syncs};
ghost use Rattle.poke_plan.specs.PlanLine.{IsPlan};
ghost use Rattle.poke_plan.specs.Plan.{item_line, to_print};

use crate::Plan;
use insn_forms::Changes;
use poke_base::{Host, Line, NoMemory, WriteFail, put_bytes, put_hex, put_text};
use poke_batch::{Batch, Due};
use std::alloc::Global;

/// A batch of one processor in which the plan's change is open.
pub fn open_batch(alloc: Global, plan: &Plan) -> Result<Batch, NoMemory>
    requires { IsPlan plan.now }
    ensures in_order { IfOk result (λ batch. to_print batch.update ≡ items (plan.now.change ∷ [])) }
    ensures one_cpu { IfOk result (λ batch. batch.cpus ≡ 1) }
{
    let mut changes = Changes::with_room(alloc, 1)?;
    let mut batch = Batch::new(alloc, 1, 1)?;
    changes.push(plan.change);
    match batch.fill(&changes, &plan.held) {
        Ok(()) => Ok(batch),
        // The site holds what its old form spells.
        Err(_) => unreachable!(),
    }
}

/// Does and prints what is due, until the update is closed. The batch has one processor, which
/// acknowledges each request at once.
pub fn print_poke<H: Host>(batch: &mut Batch, host: &mut H) -> Result<(), WriteFail>
    requires { batch.old.cpus ≡ 1 }
    ensures { Prints (H.outside host.old) (H.outside host.new) (flat_map item_line (to_print batch.old.update)) result }
{
    'items: loop {
        match batch.due() {
            Due::Idle => return Ok(()),
            Due::Write { at, byte } => {
                print_write(at, byte, host)?;
                batch.took();
            }
            Due::Request => {
                host.print(b"sync\n")?;
                batch.took();
            }
            Due::Wait => batch.acked(0),
            Due::Return => batch.took(),
        }
    }
}

/// Prints the line of a write.
#[tactic(auto, using(poke_base::proofs::Numbers::line_room))]
fn print_write<H: Host>(at: u64, byte: u8, host: &mut H) -> Result<(), WriteFail>
    ensures { Prints (H.outside host.old) (H.outside host.new) (item_line (Puts (record { at = at; byte = byte }))) result }
{
    let mut line = Line::new();
    put_text(&mut line, b"w ");
    put_hex(&mut line, at);
    put_text(&mut line, b" ");
    put_bytes(&mut line, &[byte]);
    put_text(&mut line, b"\n");
    host.print(&line)
}
