//! Which events may come.
ghost use Rattle.std.specs.Prelude.{◌≡◌};

use super::World;
use cpu_core::TurnKind;
use poke_base::CodeBytes;
use poke_batch::Due;
use run_journal::Event;

impl World {
    ghost use Rattle.std.specs.Prelude.{◌≡◌, ◌↔◌, IsTrue};
    ghost use Rattle.cpu_core.specs.declared.turn.TurnKind.TheVariants as kind;
    ghost use Rattle.poke_batch.specs.declared.batch.Due.TheVariants as due;
    ghost use Rattle.poke_batch.specs.Walk.{due_of};
    ghost use Rattle.script_runner.specs.Turns.{Begins, HasTurn, TakesRequest};
    ghost use Rattle.script_runner.specs.World.{StandsFor, left};
    ghost use Rattle.switching.specs.Journal.{IsFinished};
    ghost use Rattle.switching.specs.May.{May, MayAt, MayBegin, MayTake, MayTurn, MayWrite, has_turns};
    ghost use Rattle.switching.specs.State.{State};

    /// Whether an event may come. An event of a processor that isn't there never may.
    pub fn may(&self, event: &Event) -> bool
        ensures { (s : State) → StandsFor self.now s → (IsTrue result ↔ May self.now.image s event.now) }
    {
        match event {
            Event::Begin => self.may_begin(),
            Event::Write => self.may_write(),
            Event::Request => self.may_request(),
            Event::Take(cpu) => self.may_take(*cpu),
            Event::Return => self.may_return(),
            Event::Plain(cpu) => self.may_turn(*cpu, TurnKind::Plain),
            Event::At(cpu, bytes) => self.may_fetch(*cpu, bytes),
            Event::Handle(cpu) => self.may_turn(*cpu, TurnKind::Handle),
            Event::Tick(cpu) => self.may_turn(*cpu, TurnKind::Tick),
        }
    }

    /// Whether no step of the script is left and no update is open.
    #[tactic(auto, using(crate::proofs::Looks::finished_iff))]
    pub fn finished(&self) -> bool
        ensures { (s : State) → StandsFor self.now s → (IsTrue result ↔ IsFinished s) }
    {
        self.updater.batch.due() == Due::Idle && self.progress.step(self.script.steps()).is_none()
    }

    /// Whether no update is open, and an update or a drop is next.
    #[tactic(auto, using(crate::proofs::Looks::closed_iff))]
    fn begins(&self) -> bool
        ensures { IsTrue result ↔ Begins self.now }
    {
        self.updater.batch.due() == Due::Idle && self.progress.begins(self.script.steps())
    }

    /// Whether processors have turns: while an update is open, and by a `run` line.
    #[tactic(auto, using(crate::proofs::Looks::turns_by_due))]
    pub(super) fn turns(&self) -> bool
        ensures { result ≡ has_turns self.now.batch.update (left self.now) }
    {
        match self.updater.batch.due() {
            Due::Idle => self.progress.runs(self.script.steps()),
            Due::Write { .. } | Due::Request | Due::Wait | Due::Return => true,
        }
    }

    /// Whether a processor has a turn, which is of this kind.
    fn has_turn(&self, cpu: u8, kind: TurnKind) -> bool
        ensures { IsTrue result ↔ HasTurn self.now cpu kind }
    {
        match self.cpus.get(usize::from(cpu)) {
            Some(there) => self.turns() && there.kind(&self.image) == kind,
            None => false,
        }
    }

    /// Whether a request waits that a processor hasn't taken, which isn't in the handler.
    fn takes(&self, cpu: u8) -> bool
        ensures { IsTrue result ↔ TakesRequest self.now cpu }
    {
        match self.cpus.get(usize::from(cpu)) {
            Some(there) => {
                self.updater.batch.due() == Due::Wait
                    && !there.trapped()
                    && !self.updater.batch.has_acked(cpu)
            }
            None => false,
        }
    }

    #[tactic(auto, using(crate::proofs::Looks::begin_iff))]
    fn may_begin(&self) -> bool
        ensures { (s : State) → StandsFor self.now s → (IsTrue result ↔ MayBegin s) }
    {
        self.begins()
    }

    #[tactic(auto, using(crate::proofs::Looks::write_iff))]
    fn may_write(&self) -> bool
        ensures { (s : State) → StandsFor self.now s → (IsTrue result ↔ MayWrite s) }
    {
        matches!(self.updater.batch.due(), Due::Write { .. })
    }

    #[tactic(auto, using(crate::proofs::Looks::due_iff))]
    fn may_request(&self) -> bool
        ensures { (s : State) → StandsFor self.now s → (IsTrue result ↔ (due_of s.opened ≡ due.Request)) }
    {
        self.updater.batch.due() == Due::Request
    }

    #[tactic(auto, using(crate::proofs::Looks::take_iff))]
    fn may_take(&self, cpu: u8) -> bool
        ensures { (s : State) → StandsFor self.now s → (IsTrue result ↔ MayTake s cpu) }
    {
        self.takes(cpu)
    }

    #[tactic(auto, using(crate::proofs::Looks::due_iff))]
    fn may_return(&self) -> bool
        ensures { (s : State) → StandsFor self.now s → (IsTrue result ↔ (due_of s.opened ≡ due.Return)) }
    {
        self.updater.batch.due() == Due::Return
    }

    #[tactic(auto, using(crate::proofs::Looks::turn_iff))]
    fn may_turn(&self, cpu: u8, kind: TurnKind) -> bool
        ensures { (s : State) → StandsFor self.now s → (IsTrue result ↔ MayTurn self.now.image s cpu kind) }
    {
        self.has_turn(cpu, kind)
    }

    /// Whether a processor stands at a patched site and may fetch these bytes there.
    fn may_fetch(&self, cpu: u8, bytes: &CodeBytes) -> bool
        ensures { (s : State) → StandsFor self.now s → (IsTrue result ↔ MayAt self.now.image s cpu bytes.now.items) }
    {
        if !self.has_turn(cpu, TurnKind::At) {
            return false;
        }
        self.cpus[usize::from(cpu)].may_fetch(cpu, &self.text, bytes)
    }
}
