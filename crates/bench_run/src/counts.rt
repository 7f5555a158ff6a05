//! The counts of a run.
ghost use Rattle.std.specs.Prelude.{◌≡◌};
ghost use Rattle.bench_run.specs.Counts.{is_breakpoint};

use run_journal::Event;

/// How many events of a run there were of each kind, and how many instructions they did at patched sites.
#[derive(Clone, Copy, Debug, Default, PartialEq, Eq)]
pub struct Counts {
    /// Updates that returned.
    pub updates: u64,
    /// Bytes that were written.
    pub writes: u64,
    /// Requests to serialise.
    pub requests: u64,
    /// Requests that a processor took.
    pub takes: u64,
    /// Passes through patched sites, by the processor or by the handler.
    pub passes: u64,
    /// Breakpoints that were fetched.
    pub traps: u64,
    /// All events.
    pub events: u64,
}

impl Counts {
    ghost use Rattle.std.specs.Prelude.{◌≡◌};
    ghost use Rattle.bench_run.specs.Counting.{AreFew, with_event};

    /// Counts one event more.
    pub(crate) fn add(&mut self, event: &Event)
        requires { AreFew self.old }
        ensures { self.new ≡ with_event self.old event.now }
    {
        self.events += 1;
        match event {
            Event::Return => self.updates += 1,
            Event::Write => self.writes += 1,
            Event::Request => self.requests += 1,
            Event::Take(_) => self.takes += 1,
            Event::At(_, bytes) if is_breakpoint(bytes) => self.traps += 1,
            Event::At(..) | Event::Handle(_) => self.passes += 1,
            Event::Begin | Event::Plain(_) | Event::Tick(_) => {}
        }
    }
}

/// Whether fetched bytes are a breakpoint.
fn is_breakpoint(bytes: &[u8]) -> bool
    ensures { result ≡ is_breakpoint bytes.now }
{
    matches!(bytes, [0xcc])
}
