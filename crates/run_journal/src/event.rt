//! The events of a run.

ghost use Rattle.std.specs.Prelude.{◌≡◌};
ghost use Rattle.run_journal.specs.Spelling.{cpu_of};

use poke_base::CodeBytes;

/// One step of the machine. A processor is given by its number.
#[derive(Debug, PartialEq, Eq, Drop)]
pub enum Event {
    /// The next update or drop of the script begins.
    Begin,
    /// The due byte is written.
    Write,
    /// All processors are asked to serialise.
    Request,
    /// A processor takes the request that stands, and serialises.
    Take(u8),
    /// The update returns.
    Return,
    /// A processor does the plain instruction at which it stands.
    Plain(u8),
    /// A processor at a patched site fetches these bytes, and does what they are.
    At(u8, CodeBytes),
    /// A processor that hit a breakpoint runs its handler, and serialises.
    Handle(u8),
    /// A turn of a processor that has ended.
    Tick(u8),
}

impl Event {
    /// The number of the processor that the event is of. `None` for a step of the update.
    pub fn cpu(&self) -> Option<u8>
        ensures { result ≡ cpu_of self.now }
    {
        match self {
            Event::Begin | Event::Write | Event::Request | Event::Return => None,
            Event::Take(cpu)
            | Event::Plain(cpu)
            | Event::At(cpu, _)
            | Event::Handle(cpu)
            | Event::Tick(cpu) => Some(*cpu),
        }
    }
}
