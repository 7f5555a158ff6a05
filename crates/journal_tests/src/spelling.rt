//! How events are spelt.
ghost use Rattle.std.specs.Prelude.{◌≤◌, length};
ghost use Rattle.std.specs.Option.{ForSome};
ghost use Rattle.run_journal.specs.Spelling.{cpu_of, bytes_of};

use poke_base::{Line, code_bytes};
use run_journal::{Event, HEADER, line_of};
use std::process::Abort;

/// Checks the line of an event, and whose it is.
fn check(rt: &impl Abort, event: &Event, cpu: Option<u8>, spelling: &[u8])
    requires cpu { ForSome (cpu_of event.now) (λ cpu. cpu ≤ 15) }
    requires bytes { ForSome (bytes_of event.now) (λ bytes. 1 ≤ length bytes) }
{
    let mut line = Line::new();
    line_of(event, &mut line);
    assert_eq!(rt; line.as_slice(), spelling);
    assert_eq!(rt; event.cpu(), cpu);
}

#[test]
fn events_are_spelt(rt: HostRuntime) {
    assert_eq!(rt; HEADER, b"journal 1\n".as_slice());
    check(&rt, &Event::Begin, None, b"b\n");
    check(&rt, &Event::Write, None, b"w\n");
    check(&rt, &Event::Request, None, b"s\n");
    check(&rt, &Event::Take(0), Some(0), b"t 0\n");
    check(&rt, &Event::Return, None, b"r\n");
    check(&rt, &Event::Plain(10), Some(10), b"p 10\n");
    let nop5 = code_bytes(0x0f, &[0x1f, 0x44, 0x00, 0x00]);
    check(&rt, &Event::At(15, nop5), Some(15), b"a 15 0f1f440000\n");
    let trap = code_bytes(0xcc, &[]);
    check(&rt, &Event::At(2, trap), Some(2), b"a 2 cc\n");
    check(&rt, &Event::Handle(1), Some(1), b"h 1\n");
    check(&rt, &Event::Tick(9), Some(9), b"i 9\n");
}
