//! Instructions by their bytes, from the opcode pages of the Intel SDM, volume 2.
use insn_forms::Form;
use std::process::Abort;
use std::test::Fail;
use x64_subset::{AluOp, Insn, Undecoded, decode};

/// Reads the bytes of an instruction, also where others follow, and spells it again.
fn reads(rt: &impl Abort, at: u64, bytes: &[u8], insn: Insn) -> Result<(), Fail> {
    let (found, len) = decode(at, bytes)?;
    assert_eq!(rt; found, insn, "at {at:x}");
    assert_eq!(rt; usize::from(len), bytes.len(), "at {at:x}");
    let code = found.encode(at)?;
    assert_eq!(rt; code.as_slice(), bytes, "at {at:x}");
    Ok(())
}

#[test]
fn reads_jumps(rt: HostRuntime) -> Result<(), Fail> {
    let rows: [(u64, &[u8], Insn); 9] = [
        (0x401000, &[0xeb, 0x05], Insn::Jmp8(0x401007)),
        (0xffff_ffff_ffff_fffe, &[0xeb, 0x00], Insn::Jmp8(0)),
        (0, &[0xeb, 0x80], Insn::Jmp8(0xffff_ffff_ffff_ff82)),
        (
            0x401000,
            &[0xe9, 0xfb, 0x0f, 0x00, 0x00],
            Insn::Jmp32(0x402000),
        ),
        (
            0x402000,
            &[0xe8, 0xfb, 0xef, 0xff, 0xff],
            Insn::Call(0x401000),
        ),
        (0x1000, &[0x7f, 0x7f], Insn::Jcc8(15, 0x1081)),
        (0x1000, &[0x70, 0x80], Insn::Jcc8(0, 0xf82)),
        (
            0x401000,
            &[0x0f, 0x84, 0x00, 0x01, 0x00, 0x00],
            Insn::Jcc32(4, 0x401106),
        ),
        (
            0x1000,
            &[0x0f, 0x8f, 0xff, 0xff, 0xff, 0xff],
            Insn::Jcc32(15, 0x1005),
        ),
    ];
    for (at, bytes, insn) in rows {
        reads(&rt, at, bytes, insn)?;
    }
    Ok(())
}

#[test]
fn reads_operations(rt: HostRuntime) -> Result<(), Fail> {
    let rows: [(&[u8], Insn); 13] = [
        (&[0x01, 0xd8], Insn::Alu(AluOp::Add, 0, 3)),
        (&[0x29, 0xc8], Insn::Alu(AluOp::Sub, 0, 1)),
        (&[0x31, 0xc0], Insn::Alu(AluOp::Xor, 0, 0)),
        (&[0x39, 0xf7], Insn::Alu(AluOp::Cmp, 7, 6)),
        (&[0x85, 0xd2], Insn::Alu(AluOp::Test, 2, 2)),
        (&[0x89, 0xe8], Insn::Alu(AluOp::Mov, 0, 5)),
        (&[0x83, 0xc0, 0x01], Insn::AluImm(AluOp::Add, 0, 0x01)),
        (&[0x83, 0xeb, 0x08], Insn::AluImm(AluOp::Sub, 3, 0x08)),
        (&[0x83, 0xff, 0xff], Insn::AluImm(AluOp::Cmp, 7, 0xff)),
        (&[0xff, 0xc1], Insn::Inc(1)),
        (&[0xff, 0xcd], Insn::Dec(5)),
        (&[0xb8, 0x78, 0x56, 0x34, 0x12], Insn::MovImm(0, 0x12345678)),
        (
            &[0xbf, 0xff, 0xff, 0xff, 0xff],
            Insn::MovImm(7, 0xffff_ffff),
        ),
    ];
    for (bytes, insn) in rows {
        reads(&rt, 0x401000, bytes, insn)?;
    }
    Ok(())
}

#[test]
fn reads_others(rt: HostRuntime) -> Result<(), Fail> {
    let rows: [(&[u8], Insn); 7] = [
        (&[0xc3], Insn::Ret),
        (&[0xcc], Insn::Int3),
        (&[0xf4], Insn::Hlt),
        (&[0x0f, 0x0b], Insn::Ud2),
        (&[0xe6, 0xe9], Insn::Out(0xe9)),
        (&[0xf3, 0x0f, 0x1e, 0xfa], Insn::Endbr64),
        (&[0x0f, 0x01, 0xe8], Insn::Serialize),
    ];
    for (bytes, insn) in rows {
        reads(&rt, 0x401000, bytes, insn)?;
    }
    Ok(())
}

#[test]
fn reads_nops(rt: HostRuntime) -> Result<(), Fail> {
    let rows: [(u8, &[u8]); 9] = [
        (1, &[0x90]),
        (2, &[0x66, 0x90]),
        (3, &[0x0f, 0x1f, 0x00]),
        (4, &[0x0f, 0x1f, 0x40, 0x00]),
        (5, &[0x0f, 0x1f, 0x44, 0x00, 0x00]),
        (6, &[0x66, 0x0f, 0x1f, 0x44, 0x00, 0x00]),
        (7, &[0x0f, 0x1f, 0x80, 0x00, 0x00, 0x00, 0x00]),
        (8, &[0x0f, 0x1f, 0x84, 0x00, 0x00, 0x00, 0x00, 0x00]),
        (9, &[0x66, 0x0f, 0x1f, 0x84, 0x00, 0x00, 0x00, 0x00, 0x00]),
    ];
    for (len, bytes) in rows {
        reads(&rt, 0x401000, bytes, Insn::Nop(len))?;
    }
    Ok(())
}

#[test]
fn reads_forms(rt: HostRuntime) -> Result<(), Fail> {
    let forms = [
        Form::Nop2,
        Form::Nop5,
        Form::Jmp8(0x401010),
        Form::Jmp32(0x402000),
        Form::Call(0x402000),
        Form::Ret,
    ];
    for form in forms {
        let code = form.encode(0x401000)?;
        let (insn, _) = decode(0x401000, &code)?;
        assert_eq!(rt; insn, Insn::from(form));
    }
    Ok(())
}

#[test]
fn reads_what_others_follow(rt: HostRuntime) {
    let bytes = [0x90, 0x0f, 0x1f, 0x00, 0x06];
    assert_eq!(rt; decode(0, &bytes), Ok((Insn::Nop(1), 1)));
    assert_eq!(rt; decode(1, &bytes[1..]), Ok((Insn::Nop(3), 3)));
    assert_eq!(rt; decode(4, &bytes[4..]), Err(Undecoded::Unknown));
}

#[test]
fn cut_is_short(rt: HostRuntime) {
    let rows: [&[u8]; 11] = [
        &[0xc3],
        &[0x66, 0x90],
        &[0xeb, 0x00],
        &[0xe8, 0x00, 0x00, 0x00, 0x00],
        &[0x0f, 0x85, 0x00, 0x00, 0x00, 0x00],
        &[0x01, 0xd8],
        &[0x83, 0xc0, 0x01],
        &[0xb8, 0x78, 0x56, 0x34, 0x12],
        &[0xf3, 0x0f, 0x1e, 0xfa],
        &[0x0f, 0x1f, 0x84, 0x00, 0x00, 0x00, 0x00, 0x00],
        &[0x66, 0x0f, 0x1f, 0x84, 0x00, 0x00, 0x00, 0x00, 0x00],
    ];
    for bytes in rows {
        for len in 0..bytes.len() {
            assert_eq!(rt;
                decode(0x1000, &bytes[..len]),
                Err(Undecoded::Short),
                "of {len}"
            );
        }
    }
}

#[test]
fn others_are_unknown(rt: HostRuntime) {
    let rows: [&[u8]; 17] = [
        &[0x01, 0xe0],
        &[0x01, 0xc4],
        &[0x83, 0xc4, 0x00],
        &[0xff, 0xc4],
        &[0xbc, 0x00, 0x00, 0x00, 0x00],
        &[0x7a, 0x00],
        &[0x7b, 0x00],
        &[0x0f, 0x8a, 0x00, 0x00, 0x00, 0x00],
        &[0x0f, 0x8b, 0x00, 0x00, 0x00, 0x00],
        &[0x83, 0xc8, 0x00],
        &[0x83, 0xd0],
        &[0x8b, 0xc0],
        &[0x01, 0x00],
        &[0xff, 0xd0],
        &[0x66, 0x66, 0x90],
        &[0x0f, 0x1f, 0x44, 0x00, 0x01],
        &[0x48],
    ];
    for bytes in rows {
        assert_eq!(rt;
            decode(0x1000, bytes),
            Err(Undecoded::Unknown),
            "of {bytes:?}"
        );
    }
}

#[test]
fn conditions(rt: HostRuntime) {
    for condition in 0..16 {
        let found = decode(0x1000, &[0x70 + condition, 0x10]);
        if condition == 10 || condition == 11 {
            assert_eq!(rt; found, Err(Undecoded::Unknown), "of {condition}");
        } else {
            assert_eq!(rt;
                found,
                Ok((Insn::Jcc8(condition, 0x1012), 2)),
                "of {condition}"
            );
        }
    }
}

#[test]
fn far_targets(rt: HostRuntime) {
    assert!(rt; Insn::Jcc8(4, 0x1082).encode(0x1000).is_err());
    assert!(rt; Insn::Jmp8(0xf81).encode(0x1000).is_err());
    assert!(rt; Insn::Jcc32(4, 0x8000_1006).encode(0x1000).is_err());
    assert!(rt; Insn::Jcc32(4, 0x8000_1005).encode(0x1000).is_ok());
    assert!(rt; Insn::Call(0x1005).encode(0xffff_ffff_8000_1000).is_err());
    assert!(rt; Insn::Call(0x1004).encode(0xffff_ffff_8000_1000).is_ok());
}
