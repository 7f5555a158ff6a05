//! Writing a small module, and plans that don't fit.
use crate::module::MODULE;
use elf_build::{KeyStart, Name, Plan, PlanFunction, PlanKey, PlanSite, generated, write};
use std::alloc::Global;
use std::test::Fail;

/// A name.
fn name(bytes: &[u8]) -> Name {
    let mut name = Name::new();
    let _ = name.try_extend_from_slice(bytes);
    name
}

/// The plan of that file.
fn two_jumps(alloc: Global) -> Result<Plan, Fail> {
    let mut text = Vec::new(alloc);
    text.extend_from_slice(b"\x66\x90\x0f\x1f\x44\0\0\xff\xc0\xc3")?;
    let mut sites = Vec::new(alloc);
    sites.push(PlanSite::Jump {
        at: 0x40_1000,
        target: 0x40_1009,
        key: 0,
        likely: false,
    })?;
    sites.push(PlanSite::Jump {
        at: 0x40_1002,
        target: 0x40_1009,
        key: 0,
        likely: true,
    })?;
    let mut keys = Vec::new(alloc);
    keys.push(PlanKey {
        name: name(b"j"),
        start: KeyStart::Count(0),
    })?;
    let mut functions = Vec::new(alloc);
    functions.push(PlanFunction {
        name: name(b"f"),
        at: 0x40_1000,
    })?;
    Ok(Plan {
        base: 0x40_1000,
        text,
        sites,
        keys,
        functions,
    })
}

#[test]
fn a_small_module_is_written(rt: HostRuntime) -> Result<(), Fail> {
    let alloc = rt.alloc();
    let plan = two_jumps(alloc)?;
    assert!(rt; plan.fits());
    let mut out = Vec::new(alloc);
    if plan.fits() {
        write(&plan, &mut out)?;
    }
    assert_eq!(rt; out.as_slice(), MODULE.as_slice());
    Ok(())
}

#[test]
fn plans_of_other_sizes_do_not_fit(rt: HostRuntime) -> Result<(), Fail> {
    let alloc = rt.alloc();
    for (bytes, fits) in [(0, false), (10, true), (65_536, true), (65_537, false)] {
        let mut plan = two_jumps(alloc)?;
        plan.text = vec![in alloc; 0x90; bytes]?;
        assert_eq!(rt; plan.fits(), fits);
    }
    for (count, fits) in [(1_024, true), (1_025, false)] {
        let mut plan = two_jumps(alloc)?;
        plan.sites = vec![in alloc; PlanSite::Trace { at: 0x40_1000 }; count]?;
        assert_eq!(rt; plan.fits(), fits);
    }
    Ok(())
}

#[test]
fn plans_with_other_sites_do_not_fit(rt: HostRuntime) -> Result<(), Fail> {
    let alloc = rt.alloc();
    let misfits = [
        PlanSite::Trace { at: 0x40_0fff },
        PlanSite::Trace { at: 0x40_100a },
        PlanSite::Jump {
            at: 0x40_1000,
            target: 0x40_100a,
            key: 0,
            likely: false,
        },
        PlanSite::Jump {
            at: 0x40_1000,
            target: 0x40_1009,
            key: 1,
            likely: false,
        },
        PlanSite::Call {
            at: 0x40_1000,
            key: 0,
            tail: false,
        },
    ];
    for site in misfits {
        let mut plan = two_jumps(alloc)?;
        plan.sites.push(site)?;
        assert!(rt; !plan.fits());
    }
    Ok(())
}

#[test]
fn plans_with_other_names_do_not_fit(rt: HostRuntime) -> Result<(), Fail> {
    let alloc = rt.alloc();
    let rows: [(&[u8], u64, bool); 5] = [
        (b"", 0x40_1009, false),
        (b"a\0", 0x40_1009, false),
        (b"a", 0x40_1009, true),
        (&[b'a'; 64], 0x40_1009, true),
        (b"a", 0x40_100a, false),
    ];
    for (bytes, at, fits) in rows {
        let mut plan = two_jumps(alloc)?;
        plan.functions.push(PlanFunction {
            name: name(bytes),
            at,
        })?;
        assert_eq!(rt; plan.fits(), fits);
    }
    Ok(())
}

#[test]
fn plans_with_other_keys_do_not_fit(rt: HostRuntime) -> Result<(), Fail> {
    let alloc = rt.alloc();
    let rows: [(&[u8], KeyStart, bool); 5] = [
        (b"", KeyStart::Func(0), false),
        (b"\0", KeyStart::Func(0), false),
        (b"k", KeyStart::Func(0), true),
        (b"k", KeyStart::Count(2_147_483_647), true),
        (b"k", KeyStart::Count(2_147_483_648), false),
    ];
    for (bytes, start, fits) in rows {
        let mut plan = two_jumps(alloc)?;
        plan.keys.push(PlanKey {
            name: name(bytes),
            start,
        })?;
        assert_eq!(rt; plan.fits(), fits);
    }
    Ok(())
}

/// A plan of one byte at a place, with n keys and functions.
fn empty_plan(alloc: Global, base: u64, keys: u32, functions: u32) -> Result<Plan, Fail> {
    let mut plan = Plan {
        base,
        text: Vec::new(alloc),
        sites: Vec::new(alloc),
        keys: Vec::new(alloc),
        functions: Vec::new(alloc),
    };
    plan.text.push(0xc3)?;
    for _ in 0..keys {
        plan.keys.push(PlanKey {
            name: name(b"k"),
            start: KeyStart::Count(0),
        })?;
    }
    for _ in 0..functions {
        plan.functions.push(PlanFunction {
            name: name(b"f"),
            at: base,
        })?;
    }
    Ok(plan)
}

#[test]
fn plans_at_other_places_do_not_fit(rt: HostRuntime) -> Result<(), Fail> {
    let rows: [(u64, u32, u32, bool); 8] = [
        (0, 0, 0, true),
        (0x40_1800, 0, 0, false),
        (0xffff_ffff_fff0_0000, 0, 0, true),
        (0xffff_ffff_fff0_1000, 0, 0, false),
        (0x40_1000, 1_024, 0, true),
        (0x40_1000, 1_025, 0, false),
        (0x40_1000, 0, 2_048, true),
        (0x40_1000, 0, 2_049, false),
    ];
    for (base, keys, functions, fits) in rows {
        let plan = empty_plan(rt.alloc(), base, keys, functions)?;
        assert_eq!(rt; plan.fits(), fits);
    }
    Ok(())
}

/// The text of ten blocks: three functions, `mov ecx, 3`, the blocks, and the end of the loop.
const TEN_BLOCKS: &[u8; 94] = b"\
    \x83\xc6\x01\xc3\x83\xc7\x01\xc3\x83\xc3\x01\xc3\xb9\x03\0\0\0\
    \x0f\x1fD\0\0\xff\xc0f\x90\xff\xc2\xe8\xdf\xff\xff\xff\x0f\x1fD\0\0\
    \xe8\x02\0\0\0\xeb\x05\xe9\xd2\xff\xff\xff\
    \x0f\x1fD\0\0\xff\xc0f\x90\xff\xc2\xe8\xbe\xff\xff\xff\x0f\x1fD\0\0\
    \xe8\x02\0\0\0\xeb\x05\xe9\xb1\xff\xff\xff\
    \xff\xc9\x0f\x85\xb6\xff\xff\xff\xe6\x10\xc3";

#[test]
fn ten_blocks_are_generated(rt: HostRuntime) -> Result<(), Fail> {
    let alloc = rt.alloc();
    let plan = generated(alloc, 10)?;
    assert_eq!(rt; plan.base, 0x40_1000);
    assert_eq!(rt; plan.text.as_slice(), TEN_BLOCKS.as_slice());
    assert_eq!(rt; plan.sites.len(), 10);
    assert_eq!(rt; plan.keys.len(), 4);
    assert_eq!(rt; plan.functions.len(), 6);
    if let Some(function) = plan.functions.last() {
        assert_eq!(rt; function.name.as_slice(), b"t8".as_slice());
        assert_eq!(rt; function.at, 0x40_1042);
    }
    let mut out = Vec::new(alloc);
    write(&plan, &mut out)?;
    assert_eq!(rt; out.len(), 1_328);
    Ok(())
}

#[test]
fn sites_change_their_keys_and_likeliness(rt: HostRuntime) -> Result<(), Fail> {
    let plan = generated(rt.alloc(), 16)?;
    let rows = [
        (
            5,
            PlanSite::Jump {
                at: 0x40_1032,
                target: 0x40_1039,
                key: 1,
                likely: false,
            },
        ),
        (
            7,
            PlanSite::Call {
                at: 0x40_103d,
                key: 2,
                tail: false,
            },
        ),
        (
            9,
            PlanSite::Call {
                at: 0x40_104e,
                key: 3,
                tail: true,
            },
        ),
        (
            11,
            PlanSite::Jump {
                at: 0x40_105a,
                target: 0x40_105e,
                key: 0,
                likely: true,
            },
        ),
        (13, PlanSite::Trace { at: 0x40_1063 }),
    ];
    for (number, site) in rows {
        assert_eq!(rt; plan.sites.get(number), Some(&site));
    }
    Ok(())
}
