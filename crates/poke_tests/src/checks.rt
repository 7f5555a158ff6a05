//! `check`: what is printed where a call of the host fails.

use crate::frame::{Failing, run_failing_calls};
use std::test::Fail;
use tried_modules::TWO_SWITCHES;

/// What is printed of the module with two switches.
const TWO_SWITCHES_TEXT: &[u8] =
    b"text 401000 10\nsite 401000 jump 6690\nsite 401002 jump e902000000\naccepted\n";

#[test]
fn failing_calls_leave_a_prefix(rt: HostRuntime) -> Result<(), Fail> {
    let write: &[u8] = b"textpoke: write failed\n";
    // The first call reads the file, and four prints follow.
    let rows: [Failing<'_>; 6] = [
        (1, 5, b"", b"textpoke: read failed\n"),
        (2, 6, b"text 40", write),
        (3, 6, b"text 401000 10\nsite 401000", write),
        (
            4,
            6,
            b"text 401000 10\nsite 401000 jump 6690\nsite 401002 ju",
            write,
        ),
        (
            5,
            6,
            b"text 401000 10\nsite 401000 jump 6690\nsite 401002 jump e902000000\nacce",
            write,
        ),
        (6, 0, TWO_SWITCHES_TEXT, b""),
    ];
    let module = TWO_SWITCHES.file(rt.alloc())?;
    run_failing_calls(&rt, &["check", "m"], ("m", &module), &rows)
}
