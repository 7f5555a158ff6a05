//! A script that is run without processors.
ghost use Rattle.std.specs.Prelude.{◌≡◌, IfOk, OnOk, map};
ghost use Rattle.std.specs.List.{All};
ghost use Rattle.key_state.specs.Outcome.{ending_of, outcomes, states_after};
ghost use Rattle.key_state.specs.Settled.{IsSettledOf};
ghost use Rattle.script_text.specs.Commands.{commands};
ghost use Rattle.script_text.specs.Laws.{IsStepOf};

use key_state::{Outcome, Settled};
use module_image::Image;
use poke_base::NoMemory;
use script_text::{Script, ScriptStep};
use std::alloc::Global;

/// How the updates of a script end, in order, and the module after them.
#[derive(Drop)]
pub struct DryRun {
    pub outcomes: Vec<Outcome>,
    pub settled: Settled,
}

impl DryRun {
    ghost use Rattle.std.specs.Prelude.{◌≡◌, ◌≤◌, IfOk, length, map};
    ghost use Rattle.key_state.specs.Outcome.{HoldsWanted, ending_of};
    ghost use Rattle.poke_commands.specs.Wants.{last_states, script_outcomes};
    ghost use Rattle.script_text.specs.Laws.{IsScriptOf};
    ghost use Rattle.script_text.specs.Script.{most_updates};

    /// Does the updates of a script, each after the one before it has returned. Its other steps are passed over.
    ///
    /// # Errors
    /// Out of memory.
    pub fn of(alloc: Global, image: &Image, script: &Script) -> Result<DryRun, NoMemory>
        requires { IsScriptOf image.now script.now }
        ensures endings { IfOk result (λ run. map ending_of run.outcomes.items ≡ script_outcomes image.now script.now) }
        ensures few { IfOk result (λ run. length run.outcomes.items ≤ most_updates) }
        ensures settled { IfOk result (λ run. HoldsWanted image.now (last_states image.now script.now) run.settled.text) }
    {
        let mut settled = Settled::new(alloc, image)?;
        let outcomes = take_updates(alloc, image, script.steps(), &mut settled)?;
        Ok(DryRun { outcomes, settled })
    }
}

/// Does the updates among some steps one after the other, and answers how they end.
///
/// # Errors
/// Out of memory.
fn take_updates(
    alloc: Global,
    image: &Image,
    steps: &[ScriptStep],
    settled: &mut Settled,
) -> Result<Vec<Outcome>, NoMemory>
    requires of { IsSettledOf image.now settled.old }
    requires steps { All (IsStepOf image.now) steps.now }
    ensures endings { IfOk result (λ done. map ending_of done.items ≡ outcomes image.now settled.old.states (commands steps.now)) }
    ensures states { OnOk result (settled.new.states ≡ states_after image.now settled.old.states (commands steps.now)) }
    ensures of { OnOk result (IsSettledOf image.now settled.new) }
{
    let mut outcomes = Vec::new(alloc);
    for step in steps {
        let ScriptStep::Update(command) = step else {
            continue;
        };
        outcomes.push(settled.take(image, command))?;
    }
    Ok(outcomes)
}
