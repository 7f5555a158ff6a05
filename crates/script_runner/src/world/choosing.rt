//! The choice of the next event.
ghost use Rattle.std.specs.Prelude.{◌≡◌, ◌≤◌, length, map};
ghost use Rattle.script_runner.specs.Choosing.{IsKept, choice_of, picked_of};
ghost use Rattle.switching.specs.Choice.{drawn};

use super::World;
use super::events::MOST_IDLE;
use crate::Words;
use crate::pick::{Pick, Picks, push_some};
use cpu_core::TurnKind;
use poke_base::CodeBytes;
use poke_batch::Due;
use run_journal::Event;

impl World {
    ghost use Rattle.std.specs.Prelude.{◌≡◌, ◌<◌, ◌++◌, if◌then◌else◌, [], ◌∷◌, length, map, MatchOption};
    ghost use Rattle.run_journal.specs.declared.event.Event.TheVariants.{Begin};
    ghost use Rattle.switching.specs.Choice.{Chooser, Comes, IsPicked};
    ghost use Rattle.switching.specs.State.{State};
    ghost use Rattle.cpu_core.specs.declared.turn.TurnKind.TheVariants as kind;
    ghost use Rattle.script_runner.specs.Turns.{HasTurn};
    ghost use Rattle.script_runner.specs.Choosing.{CanFetch, Chooses, IsKept, IsOver, MakesEvent, TakesNext, chosen_found, picked_of};
    ghost use Rattle.switching.specs.May.{is_begun_next};
    ghost use Rattle.script_runner.specs.World.{StandsFor, left};
    ghost use Rattle.script_runner.specs.Choosing.{by_number, by_processor, choice_of, choices_found, chosen_of, forced_found, handler_found, patch_found, taking_found, turn_found};

    /// The patch's event that may come.
    #[tactic(auto, using(crate::proofs::Picked::patch_by_due))]
    fn patch_pick(&self) -> Option<Pick>
        ensures { chosen_of result ≡ patch_found self.now }
    {
        match self.updater.batch.due() {
            Due::Idle => self.begin_pick(),
            Due::Write { .. } => Some(Pick::Write),
            Due::Request => Some(Pick::Request),
            Due::Wait => None,
            Due::Return => Some(Pick::Return),
        }
    }

    /// The beginning of the update or drop that is next.
    fn begin_pick(&self) -> Option<Pick>
        ensures { chosen_of result ≡ (if is_begun_next (left self.now) then Comes Begin ∷ [] else []) }
    {
        if self.progress.begins(self.script.steps()) {
            Some(Pick::Begin)
        } else {
            None
        }
    }

    /// The request that waits, where a processor may take it.
    fn taking_pick(&self, cpu: u8) -> Option<Pick>
        requires { cpu < length self.now.cpus }
        ensures { chosen_of result ≡ by_number self.now (taking_found self.now) cpu }
    {
        let there = &self.cpus[usize::from(cpu)];
        let waits = matches!(self.updater.batch.due(), Due::Wait);
        if waits && !there.trapped() && !self.updater.batch.has_acked(cpu) {
            Some(Pick::Take(cpu))
        } else {
            None
        }
    }

    /// A processor's turn, where it has one.
    fn turn_pick(&self, cpu: u8) -> Option<Pick>
        requires { cpu < length self.now.cpus }
        ensures { chosen_of result ≡ by_number self.now (turn_found self.now) cpu }
    {
        if !self.turns() {
            return None;
        }
        let there = &self.cpus[usize::from(cpu)];
        Some(match there.kind(&self.image) {
            TurnKind::Plain => Pick::Plain(cpu),
            TurnKind::At => Pick::Fetch(cpu),
            TurnKind::Handle => Pick::Handle(cpu),
            TurnKind::Tick => Pick::Tick(cpu),
        })
    }

    /// A processor's handler, where an update is open and the processor is in it.
    fn handler_pick(&self, cpu: u8) -> Option<Pick>
        requires { cpu < length self.now.cpus }
        ensures { chosen_of result ≡ by_number self.now (handler_found self.now) cpu }
    {
        if let Due::Idle = self.updater.batch.due() {
            return None;
        }
        let there = &self.cpus[usize::from(cpu)];
        match there.kind(&self.image) {
            TurnKind::Handle => Some(Pick::Handle(cpu)),
            TurnKind::Plain | TurnKind::At | TurnKind::Tick => None,
        }
    }

    /// All that may come: the patch's event, then for each processor, ascending, its taking of a request and its turn.
    fn picks(&self) -> Picks
        ensures { map choice_of result.items ≡ choices_found self.now }
    {
        let cpus = self.cpus.len() as u8;
        let mut picks = Picks::new();
        push_some(&mut picks, self.patch_pick());
        for cpu in 0..cpus {
            push_some(&mut picks, self.taking_pick(cpu));
            push_some(&mut picks, self.turn_pick(cpu));
        }
        picks
    }

    /// What is forced after many events without one of the patch: its event, else a taking, else a handler, of the lowest
    /// processor.
    fn forced(&self) -> Picks
        ensures { map choice_of result.items ≡ forced_found self.now }
    {
        let cpus = self.cpus.len() as u8;
        let mut picks = Picks::new();
        push_some(&mut picks, self.patch_pick());
        for cpu in 0..cpus {
            push_some(&mut picks, self.taking_pick(cpu));
        }
        for cpu in 0..cpus {
            push_some(&mut picks, self.handler_pick(cpu));
        }
        picks
    }

    /// The event that the choice rule takes next, with the words that it draws. `None` exactly where the script is finished;
    /// no word is drawn then.
    ///
    /// Where 16 events have come since the last one of the patch, the first of these that may come is taken, without a word:
    /// the patch's event, the taking of the lowest processor, the handler of the lowest. Else one word picks among all events
    /// that may come: the patch's event, then for each processor its taking and its turn. For a fetch a second word picks each
    /// byte among its candidates.
    pub fn choose(&self, words: &mut Words) -> Option<Event>
        ensures { (ch : Chooser) → Chooses self.now words.old ch → MatchOption result (IsOver ch words.new) (λ e. TakesNext self.now.image ch e words.new) }
    {
        // (for the proof: who is lent an image knows that it is accepted)
        let _image = &self.image;
        match self.pick(words) {
            Some(pick) => Some(self.event_of(pick, words)),
            None => None,
        }
    }

    /// What the rule takes, before the bytes of a fetch are picked.
    fn pick(&self, words: &mut Words) -> Option<Pick>
        ensures picked { picked_of result words.new ≡ chosen_found self.now words.old }
        ensures kept { IsKept result words.old words.new }
    {
        if self.idle >= MOST_IDLE {
            if let Some(pick) = self.forced().first() {
                return Some(*pick);
            }
        }
        draw(&self.picks(), words)
    }

    /// The event that a pick is; the bytes of a fetch are picked by a word.
    fn event_of(&self, pick: Pick, words: &mut Words) -> Event
        requires { CanFetch self.now pick }
        ensures { MakesEvent self.now pick result words.old words.new }
    {
        match pick {
            Pick::Begin => Event::Begin,
            Pick::Write => Event::Write,
            Pick::Request => Event::Request,
            Pick::Return => Event::Return,
            Pick::Take(cpu) => Event::Take(cpu),
            Pick::Plain(cpu) => Event::Plain(cpu),
            Pick::Fetch(cpu) => Event::At(cpu, self.fetched(cpu, words.next())),
            Pick::Handle(cpu) => Event::Handle(cpu),
            Pick::Tick(cpu) => Event::Tick(cpu),
        }
    }

    /// The bytes that a processor at a patched site fetches, each picked by a word among its candidates.
    fn fetched(&self, cpu: u8, word: u64) -> CodeBytes
        requires { HasTurn self.now cpu kind.At }
        ensures { (s : State) → StandsFor self.now s → IsPicked self.now.image s cpu word result.items }
    {
        self.cpus[usize::from(cpu)].fetch(cpu, &self.text, word)
    }
}

/// One of some picks, by a word; none of none, and then no word is drawn.
fn draw(picks: &[Pick], words: &mut Words) -> Option<Pick>
    requires { length picks.now ≤ 33 }
    ensures picked { picked_of result words.new ≡ drawn words.old (map choice_of picks.now) }
    ensures kept { IsKept result words.old words.new }
{
    if picks.is_empty() {
        return None;
    }
    let place = words.next() % picks.len() as u64;
    Some(picks[place as usize])
}
