//! Events that may come or not.

use super::World;
use crate::Acted;
use poke_base::Line;
use run_journal::Event;

impl World {
    ghost use Rattle.std.specs.Prelude.{◌≡◌, [], MatchOption};
    ghost use Rattle.script_runner.specs.World.{Acts, MayNot};

    /// Does an event, puts the lines that it shows into an empty line, and answers what it did as tracers see it. `None`
    /// exactly where the event may not come; the machine is then as before, and the line is empty.
    pub fn act(&mut self, event: &Event, line: &mut Line) -> Option<Acted>
        requires { line.old.items ≡ [] }
        ensures { MatchOption result (MayNot self.old event.now self.new line.new.items) (Acts self.old event.now self.new line.new.items) }
    {
        if !self.may(event) {
            return None;
        }
        Some(self.do_event(event, line))
    }
}
