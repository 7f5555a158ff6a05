//! The command `plan`: the poke of the one change that a file asks for.
ghost use Rattle.poke_commands.specs.Command.{Plan as PlanRow};
ghost use Rattle.poke_commands.specs.Runs.{Does};

use crate::input::read_input;
use poke_base::Host;
use poke_faults::{Fault, Refusal};
use poke_plan::{PlanRefused, open_batch, print_poke, read_plan};
use std::alloc::Global;

/// How many bytes a plan file may have.
const PLAN_LIMIT: u64 = 256;

/// Prints the poke of the change that the file asks for, a line for each write and each request. The
/// file is read first, once, and no other file is.
///
/// # Errors
/// `Read`, `Refused` for what is wrong with the plan, or `Memory`: nothing was printed. `Write`: a
/// prefix of the text was printed.
pub fn plan<H: Host>(alloc: Global, file: &str, host: &mut H) -> Result<(), Fault>
    ensures { Does (PlanRow file.now) (H.outside host.old) (H.outside host.new) result }
{
    let too_long = Refusal::Plan(PlanRefused::TooLong);
    let text = read_input(alloc, file, PLAN_LIMIT, too_long, host)?;
    let plan = read_plan(&text)?;
    let mut batch = open_batch(alloc, &plan)?;
    print_poke(&mut batch, host)?;
    Ok(())
}
