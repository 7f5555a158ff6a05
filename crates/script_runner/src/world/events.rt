//! What the events do.
ghost use Rattle.std.specs.Prelude.{◌≡◌, ◌+◌, ◌≤◌, min};
ghost use Rattle.switching.specs.Choice.{most_idle};

use super::World;
use crate::Acted;
use crate::acted::{acted_handled, acted_stepped};
use crate::lines::{put_begun, put_drop, put_handled, put_returned, put_stepped};
use crate::progress::Progress;
use poke_base::{CodeBytes, Line};
use poke_batch::Due;
use run_journal::Event;
use script_text::ScriptStep;
use stale_fetch::Text;

/// How many events without one of the patch are counted.
pub const MOST_IDLE: u8 = 16;

/// How many events have come without one of the patch, after one more; 16 stands for every greater number too.
fn one_more_idle(idle: u8) -> u8
    requires { idle ≤ most_idle }
    ensures { result ≡ min (idle + 1) most_idle }
{
    (idle + 1).min(MOST_IDLE)
}

impl World {
    ghost use Rattle.std.specs.Prelude.{◌≡◌, ◌≤◌, [], length};
    ghost use Rattle.run_journal.specs.declared.event.Event.TheVariants as event;
    ghost use Rattle.script_runner.specs.Turns.{IsUsed, progress_of};
    ghost use Rattle.script_runner.specs.World.{Does, MayCome};

    /// Does an event that may come, puts the lines that it shows into an empty line, and answers what it did as tracers see it.
    pub(crate) fn do_event(&mut self, event: &Event, line: &mut Line) -> Acted
        requires may { MayCome self.old event.now }
        requires empty { line.old.items ≡ [] }
        ensures { Does self.old event.now self.new line.new.items result }
    {
        match event {
            Event::Begin => self.do_begin(line),
            Event::Write => self.do_write(),
            Event::Request => self.do_request(),
            Event::Take(cpu) => self.do_take(*cpu),
            Event::Return => self.do_return(line),
            Event::Plain(cpu) => self.do_plain(*cpu, line),
            Event::At(cpu, bytes) => self.do_site(*cpu, bytes, line),
            Event::Handle(cpu) => self.do_handler(*cpu, line),
            Event::Tick(cpu) => self.do_tick(*cpu),
        }
    }

    /// The next update or drop of the script begins.
    fn do_begin(&mut self, line: &mut Line) -> Acted
        requires may { MayCome self.old event.Begin }
        requires empty { line.old.items ≡ [] }
        ensures { Does self.old event.Begin self.new line.new.items result }
    {
        self.idle = 0;
        match self.progress.step(self.script.steps()) {
            Some(ScriptStep::Update(command)) => {
                let begun = self.updater.begin(&self.image, &self.text, &command);
                self.progress.pass_if(begun.is_ended(), self.script.steps());
                put_begun(line, self.updater.updates, &begun);
                Acted::Plain
            }
            Some(ScriptStep::Drop(place)) => {
                self.progress.pass(self.script.steps());
                put_drop(line, place);
                Acted::Drop { place }
            }
            Some(ScriptStep::Run(_)) | None => Acted::Plain,
        }
    }

    /// The due byte is written.
    fn do_write(&mut self) -> Acted
        requires { MayCome self.old event.Write }
        ensures { Does self.old event.Write self.new [] result }
    {
        let Due::Write { at, byte } = self.updater.batch.due() else {
            return Acted::Plain;
        };
        self.text.write(at, byte);
        self.updater.batch.took();
        self.idle = 0;
        Acted::Plain
    }

    /// All processors are asked to serialise.
    fn do_request(&mut self) -> Acted
        requires { MayCome self.old event.Request }
        ensures { Does self.old event.Request self.new [] result }
    {
        self.updater.batch.took();
        self.idle = 0;
        Acted::Plain
    }

    /// A processor takes the request that stands, and serialises.
    fn do_take(&mut self, cpu: u8) -> Acted
        requires { MayCome self.old (event.Take cpu) }
        ensures { Does self.old (event.Take cpu) self.new [] result }
    {
        self.text.serialise(cpu);
        self.updater.batch.acked(cpu);
        self.idle = 0;
        Acted::Plain
    }

    /// The update returns.
    fn do_return(&mut self, line: &mut Line) -> Acted
        requires may { MayCome self.old event.Return }
        requires empty { line.old.items ≡ [] }
        ensures { Does self.old event.Return self.new line.new.items result }
    {
        put_returned(line, self.updater.updates, self.updater.sites);
        self.updater.batch.took();
        self.progress.pass(self.script.steps());
        self.idle = 0;
        Acted::Plain
    }

    /// How far the script has come after a turn of a processor: none is used while an update is open.
    fn after_turn(&self) -> Progress
        ensures used { IsUsed self.now.batch.update (progress_of self.now) self.now.script.steps result }
        ensures within { result.place ≤ length self.now.script.steps }
    {
        let mut progress = self.progress;
        if let Due::Idle = self.updater.batch.due() {
            progress.use_turn(self.script.steps());
        }
        progress
    }

    /// A processor does the plain instruction at which it stands.
    fn do_plain(&mut self, cpu: u8, line: &mut Line) -> Acted
        requires may { MayCome self.old (event.Plain cpu) }
        requires empty { line.old.items ≡ [] }
        ensures { Does self.old (event.Plain cpu) self.new line.new.items result }
    {
        let progress = self.after_turn();
        let there = &mut self.cpus[usize::from(cpu)];
        let stepped = there.plain(cpu, &self.image, &mut self.text);
        put_stepped(line, cpu, there.proc().life, &stepped);
        self.progress = progress;
        self.idle = one_more_idle(self.idle);
        Acted::Plain
    }

    /// A processor at a patched site does what these bytes are that it fetched.
    fn do_site(&mut self, cpu: u8, bytes: &CodeBytes, line: &mut Line) -> Acted
        requires may { MayCome self.old (event.At cpu bytes.now) }
        requires empty { line.old.items ≡ [] }
        ensures { Does self.old (event.At cpu bytes.now) self.new line.new.items result }
    {
        let progress = self.after_turn();
        let there = &mut self.cpus[usize::from(cpu)];
        let stepped = there.at(bytes);
        put_stepped(line, cpu, there.proc().life, &stepped);
        self.progress = progress;
        self.idle = one_more_idle(self.idle);
        acted_stepped(&self.image, cpu, &stepped)
    }

    /// A processor that hit a breakpoint runs its handler, and serialises.
    fn do_handler(&mut self, cpu: u8, line: &mut Line) -> Acted
        requires may { MayCome self.old (event.Handle cpu) }
        requires empty { line.old.items ≡ [] }
        ensures { Does self.old (event.Handle cpu) self.new line.new.items result }
    {
        let progress = self.after_turn();
        let there = &mut self.cpus[usize::from(cpu)];
        let handled = there.handled(cpu, &self.updater.batch, &mut self.text);
        put_handled(line, cpu, there.proc().life, &handled);
        self.progress = progress;
        self.idle = one_more_idle(self.idle);
        acted_handled(&self.image, cpu, &handled)
    }

    /// A turn of a processor that has ended.
    fn do_tick(&mut self, cpu: u8) -> Acted
        requires { MayCome self.old (event.Tick cpu) }
        ensures { Does self.old (event.Tick cpu) self.new [] result }
    {
        self.progress = self.after_turn();
        self.idle = one_more_idle(self.idle);
        Acted::Plain
    }
}
