//! Runs of the smallest module.

use crate::bench;
use std::alloc::AllocGlobal;
use std::process::Abort;
use std::test::Fail;

#[test]
fn updates_are_the_same_whatever_the_seed(rt: HostRuntime) -> Result<(), Fail> {
    let first = bench(rt.alloc(), 10, 1)?;
    assert_eq!(rt; bench(rt.alloc(), 10, 1)?, first);
    for counts in [first, bench(rt.alloc(), 10, 2)?] {
        assert_eq!(rt; counts.updates, 7);
        assert_eq!(rt; counts.writes, 78);
        assert_eq!(rt; counts.requests, 21);
        assert_eq!(rt; counts.takes, 42);
    }
    Ok(())
}
