//! How far a script has come.
ghost use Rattle.std.specs.Prelude.{◌≡◌};

use script_text::ScriptStep;

/// How far a script has come.
#[derive(Clone, Copy, Debug, PartialEq, Eq)]
pub struct Progress {
    /// How many steps are passed.
    pub place: usize,
    /// How many turns of the `run` line in front are used.
    pub turns: u32,
}

impl Progress {
    ghost use Rattle.std.specs.Prelude.{◌≡◌, ◌≤◌, if◌then◌else◌, drop, length};
    ghost use Rattle.switching.specs.May.{is_begun_next, has_turns};
    ghost use Rattle.switching.specs.StateLaws.{TurnsAreLeft};
    ghost use Rattle.script_runner.specs.Steps.{after_turn, front, to_come};

    /// The step that is next. `None` where none is left.
    #[tactic(auto, using(crate::proofs::Fronts::front_is))]
    pub fn step(&self, steps: &[ScriptStep]) -> Option<ScriptStep>
        ensures { result ≡ front (to_come self.now steps.now) }
    {
        steps.get(self.place).copied()
    }

    /// Whether an update or a drop is next.
    #[tactic(auto, using(crate::proofs::Fronts::begins))]
    pub fn begins(&self, steps: &[ScriptStep]) -> bool
        ensures { result ≡ is_begun_next (to_come self.now steps.now) }
    {
        match self.step(steps) {
            Some(ScriptStep::Update(_) | ScriptStep::Drop(_)) => true,
            Some(ScriptStep::Run(_)) | None => false,
        }
    }

    /// Whether a `run` line is next.
    #[tactic(auto, using(crate::proofs::Fronts::runs))]
    pub fn runs(&self, steps: &[ScriptStep]) -> bool
        ensures { result ≡ has_turns None (to_come self.now steps.now) }
    {
        match self.step(steps) {
            Some(ScriptStep::Run(_)) => true,
            Some(ScriptStep::Update(_) | ScriptStep::Drop(_)) | None => false,
        }
    }

    /// Passes the step that is next, if one is left.
    #[tactic(auto, using(crate::proofs::Fronts::one_more, crate::proofs::Fronts::past_all))]
    pub fn pass(&mut self, steps: &[ScriptStep])
        requires within { self.old.place ≤ length steps.now }
        ensures passed { to_come self.new steps.now ≡ drop 1 (to_come self.old steps.now) }
        ensures turns { self.new.turns ≡ self.old.turns }
        ensures within { self.new.place ≤ length steps.now }
    {
        if self.place < steps.len() {
            self.place += 1;
        }
    }

    /// Passes the step that is next where it has ended.
    pub fn pass_if(&mut self, ended: bool, steps: &[ScriptStep])
        requires within { self.old.place ≤ length steps.now }
        ensures passed { to_come self.new steps.now ≡ (if ended then drop 1 (to_come self.old steps.now) else to_come self.old steps.now) }
        ensures turns { self.new.turns ≡ self.old.turns }
        ensures within { self.new.place ≤ length steps.now }
    {
        if ended {
            self.pass(steps);
        }
    }

    /// Uses a turn of the `run` line that is next; after its last one the line is passed.
    #[tactic(auto, using(crate::proofs::Fronts::turn_last, crate::proofs::Fronts::turn_more, crate::proofs::Fronts::turn_none))]
    pub fn use_turn(&mut self, steps: &[ScriptStep])
        requires within { self.old.place ≤ length steps.now }
        requires left { TurnsAreLeft self.old.turns (to_come self.old steps.now) }
        ensures used { (to_come self.new steps.now, self.new.turns) ≡ after_turn self.old.turns (to_come self.old steps.now) }
        ensures within { self.new.place ≤ length steps.now }
    {
        let Some(ScriptStep::Run(turns)) = self.step(steps) else {
            return;
        };
        if self.turns + 1 == turns {
            self.pass(steps);
            self.turns = 0;
        } else {
            self.turns += 1;
        }
    }
}
