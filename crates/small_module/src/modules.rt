//! Modules that several crates try things on.
use crate::{F, Small};
use elf_build::{KeyStart, PlanSite};

/// A switch between two loads, each with an output and a return after it; a return; a breakpoint.
pub const BRANCH: Small<'static> = Small {
    text: b"\x0f\x1fD\0\0\xb8\x01\0\0\0\xe6\x10\xc3\xcc\xb8\x02\0\0\0\xe6\x10\xc3",
    sites: &[PlanSite::Jump {
        at: F,
        target: F + 14,
        key: 0,
        likely: false,
    }],
    keys: &[(b"k", KeyStart::Count(0))],
    functions: &[(b"f", F), (b"leaf", F + 12), (b"brk", F + 13)],
};

/// A loop with a switch in it.
pub const LOOP: Small<'static> = Small {
    text: b"\xb9\x03\0\0\0\x0f\x1fD\0\0\xff\xc9\x75\xf7\xc3\xff\xc0\xeb\xf7",
    sites: &[PlanSite::Jump {
        at: F + 5,
        target: F + 15,
        key: 0,
        likely: false,
    }],
    keys: &[(b"k", KeyStart::Count(0))],
    functions: &[(b"f", F)],
};

/// A call of the first of two functions.
pub const CALL: Small<'static> = Small {
    text: b"\xe8\x03\0\0\0\xe6\x10\xc3\xb8\x01\0\0\0\xc3\xb8\x02\0\0\0\xc3",
    sites: &[PlanSite::Call {
        at: F,
        key: 0,
        tail: false,
    }],
    keys: &[(b"ck", KeyStart::Func(F + 8))],
    functions: &[(b"f", F), (b"a", F + 8), (b"b", F + 14)],
};

/// A call of a function that ends with a tail call.
pub const TAIL: Small<'static> = Small {
    text: b"\xe8\x03\0\0\0\xe6\x10\xf4\xe9\0\0\0\0\xb8\x01\0\0\0\xc3",
    sites: &[PlanSite::Call {
        at: F + 8,
        key: 0,
        tail: true,
    }],
    keys: &[(b"tk", KeyStart::Func(F + 13))],
    functions: &[(b"f", F), (b"a", F + 13)],
};

/// A loop of a switch that leads to the same place either way, and a jump back.
pub const SPIN: Small<'static> = Small {
    text: b"\x0f\x1fD\0\0\xeb\xf9",
    sites: &[PlanSite::Jump {
        at: F,
        target: F + 5,
        key: 0,
        likely: false,
    }],
    keys: &[(b"k", KeyStart::Count(0))],
    functions: &[(b"f", F)],
};
