//! Words that are no command: nothing is read, made or printed.

use crate::frame::{Left, run_leaving};
use crate::plans::NOP_TO_JMP;
use std::test::Fail;
use tried_modules::TWO_SWITCHES;

/// Words that are no command.
const OTHER: &[(&str, &[&str])] = &[
    ("no words", &[]),
    ("no plan", &["plan"]),
    ("two plans", &["plan", "p", "q"]),
    ("a capital in plan", &["Plan", "p"]),
    ("no module to show", &["show"]),
    ("two modules to show", &["show", "m", "m"]),
    ("no module to check", &["check"]),
    ("two modules to check", &["check", "m", "m"]),
    ("a capital in check", &["Check", "m"]),
    ("no number", &["make"]),
    ("no module to make", &["make", "10"]),
    ("two modules to make", &["make", "10", "m", "n"]),
    ("too few blocks", &["make", "9", "m"]),
    ("too many blocks", &["make", "1001", "m"]),
    ("no digit", &["make", "x", "m"]),
    ("a sign", &["make", "-10", "m"]),
    ("no script", &["wants", "m"]),
    ("two scripts", &["wants", "m", "p", "p"]),
];

#[test]
fn other_words_are_refused(rt: HostRuntime) -> Result<(), Fail> {
    let module = TWO_SWITCHES.file(rt.alloc())?;
    let files: [(&str, &[u8]); 2] = [("p", NOP_TO_JMP), ("m", &module)];
    let left: [Left<'_>; 2] = [("m", Some(&module)), ("n", None)];
    for &(name, words) in OTHER {
        let reported = b"textpoke: bad words\n";
        run_leaving(&rt, &[], &(name, words, &files, 1, b"", reported), &left)?;
    }
    Ok(())
}
