//! Scripts for a small module: what no contract says, with values from outside.

use elf_build::{KeyStart, PlanSite};
use elf_module::ElfFile;
use module_image::{Command, Image};
use poke_base::NoMemory;
use script_text::{Script, ScriptError, ScriptStep, ScriptWhy};
use small_module::{F, Small};
use std::alloc::Global;
use std::process::Abort;
use std::test::Fail;

/// A module: ENDBR64 and a traced NOP after it, a switch, a load, a call and two returns. Its functions are `f` with the
/// trace site, `g` without one, the tracer, and two with the names that stand for no function and for all sites.
const MODULE: Small<'static> = Small {
    text: b"\xf3\x0f\x1e\xfa\x0f\x1fD\0\0f\x90\xb8\x01\0\0\0\xe8\0\0\0\0\xc3\xc3",
    sites: &[
        PlanSite::Jump {
            at: F + 9,
            target: F + 11,
            key: 0,
            likely: false,
        },
        PlanSite::Call {
            at: F + 16,
            key: 1,
            tail: false,
        },
        PlanSite::Trace { at: F + 4 },
    ],
    keys: &[(b"k", KeyStart::Count(0)), (b"ck", KeyStart::Func(F))],
    functions: &[
        (b"f", F),
        (b"g", F + 9),
        (b"ftrace_caller", F + 22),
        (b"-", F + 21),
        (b"*", F + 22),
    ],
};

/// The module.
fn image<R: Abort + AllocGlobal>(rt: &R) -> Result<Image, Fail> {
    let bytes = MODULE.file(rt.alloc())?;
    assert!(rt; bytes.len() < 10_000);
    Ok(Image::accept(rt.alloc(), &ElfFile::read(&bytes)?)?)
}

/// Asserts what a script of the module says.
fn says<R: Abort + AllocGlobal>(
    rt: &R,
    image: &Image,
    text: &[u8],
    entries: &[u64],
    steps: &[ScriptStep],
) -> Result<(), Fail> {
    assert!(rt; text.len() < 1_000);
    let script = Script::read(rt.alloc(), text, image)?;
    assert_eq!(rt; script.entries(), entries);
    assert_eq!(rt; script.steps(), steps);
    Ok(())
}

#[test]
fn a_script_is_read(rt: HostRuntime) -> Result<(), Fail> {
    let text =
        b"# a comment\n\n \t\r\ncpu f\r\n\tcpu  g\ncpu *\ncpu -\ninc k\ndec k\n  # enable g\nenable k\ndisable k\n\
        call ck g\ncall ck -\ncall ck *\ntrace f\nuntrace f\ntrace *\nuntrace *\nrun 01\nrun 1000\ndrop 0\ndrop 255";
    let entries = [F, F + 9, F + 22, F + 21];
    let steps = [
        ScriptStep::Update(Command::Inc(0)),
        ScriptStep::Update(Command::Dec(0)),
        ScriptStep::Update(Command::Enable(0)),
        ScriptStep::Update(Command::Disable(0)),
        ScriptStep::Update(Command::Target(1, F + 9)),
        ScriptStep::Update(Command::Target(1, 0)),
        ScriptStep::Update(Command::Target(1, F + 22)),
        ScriptStep::Update(Command::Trace(0, true)),
        ScriptStep::Update(Command::Trace(0, false)),
        ScriptStep::Update(Command::TraceAll(true)),
        ScriptStep::Update(Command::TraceAll(false)),
        ScriptStep::Run(1),
        ScriptStep::Run(1_000),
        ScriptStep::Drop(0),
        ScriptStep::Drop(255),
    ];
    let image = image(&rt)?;
    says(&rt, &image, text, &entries, &steps)
}

/// Why a script of the module is refused, if it is.
fn refusal<R: Abort + AllocGlobal>(rt: &R, image: &Image, text: &[u8]) -> Option<ScriptError> {
    assert!(rt; text.len() < 1_000);
    Script::read(rt.alloc(), text, image).err()
}

/// A script, the line that is refused, and why.
type Refused<'a> = (&'a [u8], u32, ScriptWhy);

/// Asserts of each row that its script is refused.
fn refuses<R: Abort + AllocGlobal>(rt: &R, image: &Image, rows: &[Refused<'_>]) {
    for &(text, line, why) in rows {
        let want = ScriptError::Refused { line, why };
        assert_eq!(rt; refusal(rt, image, text), Some(want));
    }
}

#[test]
fn lines_are_refused(rt: HostRuntime) -> Result<(), Fail> {
    let rows: [Refused<'_>; 32] = [
        (b"", 1, ScriptWhy::NoCpu),
        (b"#", 2, ScriptWhy::NoCpu),
        (b"# cpu f\n\n# f\n", 4, ScriptWhy::NoCpu),
        (b"jump k", 1, ScriptWhy::Word),
        (b"cpu f\nCpu f", 2, ScriptWhy::Word),
        (b"cpu f\nenable", 2, ScriptWhy::Word),
        (b"cpu f\n\nrun 1 2", 3, ScriptWhy::Word),
        (b"cpu f\n#\ncall ck", 3, ScriptWhy::Word),
        (b"cpu f\ncall ck f g", 2, ScriptWhy::Word),
        (b"cpu f # a comment", 1, ScriptWhy::Word),
        (b"cpu f\n\xff", 2, ScriptWhy::Word),
        (b"inc nokey", 1, ScriptWhy::NoCpu),
        (b"run 0", 1, ScriptWhy::NoCpu),
        (b"cpu f\nrun 1\ncpu f", 3, ScriptWhy::LateCpu),
        (b"cpu f\nrun 1\ncpu nofunction", 3, ScriptWhy::LateCpu),
        (b"cpu f\nrun 0", 2, ScriptWhy::Number),
        (b"cpu f\nrun 1000001", 2, ScriptWhy::Number),
        (b"cpu f\nrun 18446744073709551617", 2, ScriptWhy::Number),
        (b"cpu f\nrun 000000000000000000001", 2, ScriptWhy::Number),
        (b"cpu f\nrun 1000000\nrun x", 3, ScriptWhy::Number),
        (b"cpu f\ndrop 256", 2, ScriptWhy::Number),
        (b"cpu f\ndrop -1", 2, ScriptWhy::Number),
        (b"cpu nofunction", 1, ScriptWhy::Name),
        (b"cpu f\ninc ck", 2, ScriptWhy::Name),
        (b"cpu f\ninc -", 2, ScriptWhy::Name),
        (b"cpu f\ninc k\0", 2, ScriptWhy::Name),
        (b"cpu f\ncall k f", 2, ScriptWhy::Name),
        (b"cpu f\ncall - f", 2, ScriptWhy::Name),
        (b"cpu f\ncall ck nofunction", 2, ScriptWhy::Name),
        (b"cpu f\ntrace g", 2, ScriptWhy::Name),
        (b"cpu f\nuntrace nofunction", 2, ScriptWhy::Name),
        (b"cpu f\nrun 1\nrun 1000000", 3, ScriptWhy::Turns),
    ];
    let image = image(&rt)?;
    refuses(&rt, &image, &rows);
    Ok(())
}

/// Beside a first line of a processor: a line that follows so often, the last line, and why that is refused, if it is.
type Long<'a> = (&'a [u8], u32, &'a [u8], Option<ScriptWhy>);

/// The script of a row.
fn long(alloc: Global, (line, times, last, _): Long<'_>) -> Result<Vec<u8>, NoMemory> {
    let mut text = Vec::from_slice(alloc, b"cpu f\n")?;
    for _ in 0..times {
        text.extend_from_slice(line)?;
    }
    text.extend_from_slice(last)?;
    Ok(text)
}

/// Asserts of each row how its script is answered.
fn answers<R: Abort + AllocGlobal>(
    rt: &R,
    image: &Image,
    rows: &[Long<'_>],
) -> Result<(), NoMemory> {
    for row in rows {
        let text = long(rt.alloc(), *row)?;
        let want = row.3.map(|why| ScriptError::Refused {
            line: row.1.saturating_add(2),
            why,
        });
        assert_eq!(rt; refusal(rt, image, &text), want);
    }
    Ok(())
}

#[test]
fn limits_are_kept(rt: HostRuntime) -> Result<(), Fail> {
    let rows: [Long<'_>; 12] = [
        (b"cpu g\n", 15, b"#", None),
        (b"cpu g\n", 15, b"cpu g", Some(ScriptWhy::Cpus)),
        (b"cpu g\n", 15, b"cpu nofunction", Some(ScriptWhy::Cpus)),
        (b"inc k\n", 63, b"trace *", None),
        (b"inc k\n", 64, b"trace *", Some(ScriptWhy::Updates)),
        (b"inc k\n", 64, b"inc nokey", Some(ScriptWhy::Name)),
        (b"drop 1\n", 63, b"drop 2", None),
        (b"drop 1\n", 64, b"drop 2", Some(ScriptWhy::Drops)),
        (b"drop 1\n", 64, b"drop 256", Some(ScriptWhy::Number)),
        (b"run 250000\n", 3, b"run 250000", None),
        (b"run 250000\n", 4, b"run 1", Some(ScriptWhy::Turns)),
        (b"run 250000\n", 4, b"cpu f", Some(ScriptWhy::LateCpu)),
    ];
    let image = image(&rt)?;
    answers(&rt, &image, &rows)?;
    Ok(())
}

#[test]
fn errors_are_worded(rt: HostRuntime) -> Result<(), Fail> {
    let refused = ScriptError::Refused {
        line: 3,
        why: ScriptWhy::LateCpu,
    };
    let text = format!(in rt.alloc(); "{refused}, {}", ScriptError::NoMemory)?;
    assert_eq!(rt; text.as_str(), "line 3: LateCpu, out of memory");
    Ok(())
}
