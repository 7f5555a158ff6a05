//! The program from its arguments to its exit code, over a host in memory.

use crate::program::run;
use poke_base::MemoryHost;
use std::env::FillError;
use std::io::ErrorKind;
use std::process::ExitCode;
use std::rt::Env;
use std::test::Fail;
use std::{env, io};

/// Arguments as a system gives them, bytes that needn't be UTF-8.
#[derive(Drop)]
struct Given<'a>(&'a [&'a [u8]]);

impl Env for Given<'_> {
    fn arg(&self, i: usize, buf: &mut [u8]) -> Result<usize, FillError> {
        let Some(bytes) = self.0.get(i) else {
            return Err(FillError::NotPresent);
        };
        let Some(place) = buf.get_mut(..bytes.len()) else {
            return Err(FillError::TooLong);
        };
        place.copy_from_slice(bytes);
        Ok(bytes.len())
    }

    fn var(&self, _name: &str, _buf: &mut [u8]) -> Result<usize, FillError> {
        Err(FillError::NotPresent)
    }

    fn var_at(&self, _i: usize, _buf: &mut [u8]) -> Result<usize, FillError> {
        Err(FillError::NotPresent)
    }
}

/// A no-operation of two bytes becomes another jump.
const PLAN: &[u8] = b"1000 6690 jmp8 1081\n";

const POKE: &[u8] = b"w 1000 cc\nsync\nw 1001 7f\nsync\nw 1000 eb\nsync\n";

#[test]
fn the_exit_code_is_the_status(rt: HostRuntime) -> Result<(), Fail> {
    let bad_words: &[u8] = b"textpoke: bad words\n";
    let rows: [(&str, &[&[u8]], u8, &[u8], &[u8]); 7] = [
        ("a plan", &[b"textpoke", b"plan", b"p"], 0, POKE, b""),
        ("no arguments", &[], 1, b"", bad_words),
        ("no words", &[b"textpoke"], 1, b"", bad_words),
        ("no name", &[b"plan", b"p"], 1, b"", bad_words),
        (
            "a word that isn't UTF-8",
            &[b"textpoke", b"plan", b"\xff"],
            1,
            b"",
            bad_words,
        ),
        (
            "no module",
            &[b"textpoke", b"show", b"p"],
            2,
            b"",
            b"textpoke: module: Short 14\n",
        ),
        (
            "no file",
            &[b"textpoke", b"plan", b"q"],
            5,
            b"",
            b"textpoke: read failed\n",
        ),
    ];
    let alloc = rt.alloc();
    for (name, args, status, printed, reported) in rows {
        let mut host = MemoryHost::new(alloc);
        host.put("p", PLAN)?;
        let code = run(&rt, env::args(&(Given(args), alloc)), &mut host);
        assert_eq!(rt; host.complained(), reported, "{name}");
        assert_eq!(rt; host.printed(), printed, "{name}");
        assert_eq!(rt; code, ExitCode::from(status), "{name}");
    }
    Ok(())
}

#[test]
fn arguments_that_were_not_read_are_reported(rt: HostRuntime) -> Result<(), Fail> {
    let rows: [(ErrorKind, u8, &[u8]); 3] = [
        (ErrorKind::InvalidData, 1, b"textpoke: bad words\n"),
        (ErrorKind::Other, 1, b"textpoke: bad words\n"),
        (ErrorKind::OutOfMemory, 7, b"textpoke: no memory\n"),
    ];
    let alloc = rt.alloc();
    for (why, status, reported) in rows {
        let mut host = MemoryHost::new(alloc);
        let code = run(&rt, Err(io::Error::from(why)), &mut host);
        assert_eq!(rt; host.complained(), reported);
        assert_eq!(rt; code, ExitCode::from(status));

        // A complaint that fails changes no status.
        let mut host = MemoryHost::new(alloc);
        host.fail_at(1)?;
        let code = run(&rt, Err(io::Error::from(why)), &mut host);
        assert!(rt; reported.starts_with(host.complained()));
        assert!(rt; host.complained().len() < reported.len());
        assert_eq!(rt; code, ExitCode::from(status));
    }
    Ok(())
}
