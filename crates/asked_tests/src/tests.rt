//! A host that keeps the names that it was asked for, and the names that each command asks.
ghost use Rattle.std.specs.Prelude.{◌≡◌};

use live_engine::OpenGate;
use poke_base::{AskedBy, Host, MemoryHost, NoMemory, ReadFail, WriteFail};
use poke_tool::textpoke;
use std::alloc::Global;
use std::process::Abort;
use std::test::Fail;
use std::thread::Threads;
use tried_commands::words;
use tried_modules::TWO_SWITCHES;

/// A host in memory, and the names that its calls were handed, in order.
#[derive(Drop)]
struct AskedHost {
    alloc: Global,
    host: MemoryHost,
    asked: Vec<(String, AskedBy)>,
}

impl AskedHost {
    /// A host with no file that was asked for nothing.
    fn new(alloc: Global) -> Self {
        AskedHost {
            alloc,
            host: MemoryHost::new(alloc),
            asked: Vec::new(alloc),
        }
    }

    /// The names that were asked for, each with the call that it was handed to.
    fn asked(&self) -> &[(String, AskedBy)] {
        &self.asked
    }

    /// Gives the host a file.
    fn put(&mut self, name: &str, bytes: &[u8]) -> Result<(), NoMemory> {
        self.host.put(name, bytes)
    }

    /// Keeps a name, where there is memory for it.
    fn keep(&mut self, name: &str, by: AskedBy)
        ensures { self.new.host ≡ self.old.host }
    {
        if let Ok(name) = String::from_str(self.alloc, name) {
            let _ = self.asked.push((name, by));
        }
    }
}

impl Host for AskedHost {
    ghost use Rattle.poke_base.specs.MemoryHost.{outside_of};

    ghost outside = { λ asked. outside_of asked.host };

    fn read_file(&mut self, name: &str, limit: u64, out: &mut Vec<u8>) -> Result<(), ReadFail> {
        self.keep(name, AskedBy::Read);
        self.host.read_file(name, limit, out)
    }

    fn make_file(&mut self, name: &str) -> Result<(), WriteFail> {
        self.keep(name, AskedBy::Make);
        self.host.make_file(name)
    }

    fn append(&mut self, piece: &[u8]) -> Result<(), WriteFail> {
        self.host.append(piece)
    }

    fn print(&mut self, piece: &[u8]) -> Result<(), WriteFail> {
        self.host.print(piece)
    }

    fn complain(&mut self, piece: &[u8]) -> Result<(), WriteFail> {
        self.host.complain(piece)
    }
}

/// A name that is asked for, and the call that it is handed to.
type Asked<'a> = (&'a [u8], AskedBy);

/// Runs the words of a command over a host, and asserts the names that it is asked for, in order.
fn asks<R: Abort + AllocGlobal + Threads + Sync>(
    rt: &R,
    host: &mut AskedHost,
    list: &[&str],
    names: &[Asked<'_>],
) -> Result<(), Fail> {
    let list = words(rt.alloc(), list)?;
    let _ = textpoke(rt, &list, host, &mut Vec::new(rt.alloc()), &OpenGate);
    let asked = host.asked();
    assert_eq!(rt; asked.len(), names.len());
    for ((name, by), want) in asked.iter().zip(names) {
        assert_eq!(rt; name.as_bytes(), want.0);
        assert_eq!(rt; *by, want.1);
    }
    Ok(())
}

/// Runs the words of a command over a host with no file, and asserts the one name that it is asked for.
fn asks_one<R: Abort + AllocGlobal + Threads + Sync>(
    rt: &R,
    list: &[&str],
    name: Asked<'_>,
) -> Result<(), Fail> {
    asks(rt, &mut AskedHost::new(rt.alloc()), list, &[name])
}

#[test]
fn the_one_name_is_asked(rt: HostRuntime) -> Result<(), Fail> {
    let rows: [(&[&str], Asked<'_>); 5] = [
        (&["plan", "p"], (b"p", AskedBy::Read)),
        (&["show", "m"], (b"m", AskedBy::Read)),
        (&["check", "m"], (b"m", AskedBy::Read)),
        (&["make", "10", "m"], (b"m", AskedBy::Make)),
        // It isn't there, so the script isn't asked for.
        (&["wants", "m", "s"], (b"m", AskedBy::Read)),
    ];
    for (list, name) in rows {
        asks_one(&rt, list, name)?;
    }
    Ok(())
}

/// Runs `wants` over a host with a module and no script, and asserts the names that it is asked for.
fn wants_asks<R: Abort + AllocGlobal + Threads + Sync>(
    rt: &R,
    host: &mut AskedHost,
    module: &[u8],
    names: &[Asked<'_>],
) -> Result<(), Fail> {
    host.put("m", module)?;
    asks(rt, host, &["wants", "m", "s"], names)
}

#[test]
fn the_script_is_asked_after_its_module(rt: HostRuntime) -> Result<(), Fail> {
    let module = TWO_SWITCHES.file(rt.alloc())?;
    let names: [Asked<'_>; 2] = [(b"m", AskedBy::Read), (b"s", AskedBy::Read)];
    wants_asks(&rt, &mut AskedHost::new(rt.alloc()), &module, &names)
}

#[test]
fn the_script_of_a_bad_module_is_not_asked(rt: HostRuntime) -> Result<(), Fail> {
    let mut host = AskedHost::new(rt.alloc());
    wants_asks(&rt, &mut host, b"no module", &[(b"m", AskedBy::Read)])
}
