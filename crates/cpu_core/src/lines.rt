//! The lines of a processor.
ghost use Rattle.std.specs.Prelude.{◌≡◌, ◌≤◌, ◌+◌, ◌++◌, [], ◌∷◌, length};
ghost use Rattle.arrayvec.specs.ArrayVec.{array_vec_len};
ghost use Rattle.poke_base.specs.Number.{decimal, hexadecimal};
ghost use Rattle.cpu_core.specs.Lines.{form_words, pass_line, pass_words, out_line, fault_words, stop_line, mark_line};

use poke_base::{Line, put_bytes, put_dec, put_hex, put_text};
use x64_subset::{FaultKind, Insn, Life, Mark};

/// Adds the line of an instruction that a processor, whose number is at most 15, did at the patched site
/// at the address `at`: `C ADDR FORM` and a line feed. FORM is `nop`, `jmp T`, `call T` or `ret`, with the
/// target, or `other` for any other instruction. Addresses are in hexadecimal, the number in decimal. The
/// line has to have room for 42 bytes.
#[tactic(auto, using(poke_base::proofs::Numbers::line_room))]
pub fn put_pass(line: &mut Line, cpu: u8, at: u64, insn: &Insn)
    requires known { cpu ≤ 15 }
    requires room { array_vec_len line.old + 42 ≤ 96 }
    ensures added { line.new.items ≡ line.old.items ++ pass_line cpu at insn.now }
    ensures short { length line.new.items ≤ length line.old.items + 42 }
{
    put_pass_words(line, cpu, at, insn);
    put_text(line, b"\n");
}

/// Adds the words of that line, `C ADDR FORM`, without the line feed. The line has to have room for 41 bytes.
#[tactic(auto, using(poke_base::proofs::Numbers::line_room))]
pub fn put_pass_words(line: &mut Line, cpu: u8, at: u64, insn: &Insn)
    requires known { cpu ≤ 15 }
    requires room { array_vec_len line.old + 41 ≤ 96 }
    ensures added { line.new.items ≡ line.old.items ++ pass_words cpu at insn.now }
    ensures short { length line.new.items ≤ length line.old.items + 41 }
{
    put_cpu(line, cpu);
    put_text(line, b" ");
    put_hex(line, at);
    put_text(line, b" ");
    put_form(line, insn);
}

/// Adds a processor's number, at most two digits.
fn put_cpu(line: &mut Line, cpu: u8)
    requires known { cpu ≤ 15 }
    requires room { array_vec_len line.old + 2 ≤ 96 }
    ensures added { line.new.items ≡ line.old.items ++ decimal cpu }
    ensures short { length (decimal cpu) ≤ 2 }
{
    put_dec(line, u64::from(cpu));
}

/// Adds what form an instruction is, at most 21 bytes.
fn put_form(line: &mut Line, insn: &Insn)
    requires { array_vec_len line.old + 21 ≤ 96 }
    ensures added { line.new.items ≡ line.old.items ++ form_words insn.now }
    ensures short { length (form_words insn.now) ≤ 21 }
{
    match *insn {
        Insn::Nop(_) => put_text(line, b"nop"),
        Insn::Jmp8(target) | Insn::Jmp32(target) => put_to(line, b"jmp ", target),
        Insn::Call(target) => put_to(line, b"call ", target),
        Insn::Ret => put_text(line, b"ret"),
        _ => put_text(line, b"other"),
    }
}

/// Adds a word and an address, at most 21 bytes.
#[tactic(auto, using(poke_base::proofs::Numbers::line_room))]
fn put_to(line: &mut Line, word: &[u8], target: u64)
    requires word { length word.now ≤ 5 }
    requires room { array_vec_len line.old + 21 ≤ 96 }
    ensures added { line.new.items ≡ line.old.items ++ (word.now ++ hexadecimal target) }
    ensures short { length (hexadecimal target) ≤ 16 }
{
    put_text(line, word);
    put_hex(line, target);
}

/// Adds the line of what an instruction showed of a processor, whose number is at most 15: nothing,
/// `C out PP VV` and a line feed for a byte that it put to a port, with the port and the value as two
/// hexadecimal digits each, or where it ended the line of how it did, as `put_stop` has it. The line has
/// to have room for 21 bytes.
pub fn put_mark(line: &mut Line, cpu: u8, mark: Mark, life: Life)
    requires known { cpu ≤ 15 }
    requires room { array_vec_len line.old + 21 ≤ 96 }
    ensures added { line.new.items ≡ line.old.items ++ mark_line cpu mark life }
    ensures short { length line.new.items ≤ length line.old.items + 21 }
{
    match mark {
        Mark::None => {}
        Mark::Out { port, value } => put_out(line, cpu, port, value),
        Mark::Ended => put_stop(line, cpu, life),
    }
}

/// Adds the line of a byte that was put to a port.
#[tactic(auto, using(poke_base::proofs::Numbers::line_room))]
fn put_out(line: &mut Line, cpu: u8, port: u8, value: u8)
    requires known { cpu ≤ 15 }
    requires room { array_vec_len line.old + 21 ≤ 96 }
    ensures added { line.new.items ≡ line.old.items ++ out_line cpu port value }
    ensures short { length line.new.items ≤ length line.old.items + 21 }
{
    put_cpu(line, cpu);
    put_text(line, b" out ");
    put_bytes(line, &[port]);
    put_text(line, b" ");
    put_bytes(line, &[value]);
    put_text(line, b"\n");
}

/// Adds the line of how a processor, whose number is at most 15, ended: `C done`, `C halt`,
/// `C fault undefined`, `C fault breakpoint` or `C fault depth`, and a line feed; nothing where it runs.
/// The line has to have room for 21 bytes.
pub fn put_stop(line: &mut Line, cpu: u8, life: Life)
    requires known { cpu ≤ 15 }
    requires room { array_vec_len line.old + 21 ≤ 96 }
    ensures added { line.new.items ≡ line.old.items ++ stop_line cpu life }
    ensures short { length line.new.items ≤ length line.old.items + 21 }
{
    match life {
        Life::Running => {}
        Life::Done => put_end(line, cpu, b" done"),
        Life::Halted => put_end(line, cpu, b" halt"),
        Life::Fault(why) => put_end(line, cpu, fault_words(why)),
    }
}

/// The words for a fault, with a space before them.
fn fault_words(why: FaultKind) -> &'static [u8]
    ensures words { result.now ≡ fault_words why }
    ensures short { length result.now ≤ 17 }
{
    match why {
        FaultKind::Undefined => b" fault undefined",
        FaultKind::Breakpoint => b" fault breakpoint",
        FaultKind::Depth => b" fault depth",
    }
}

/// Adds a processor's number, words and a line feed.
#[tactic(auto, using(poke_base::proofs::Numbers::line_room))]
fn put_end(line: &mut Line, cpu: u8, words: &[u8])
    requires known { cpu ≤ 15 }
    requires words { length words.now ≤ 17 }
    requires room { array_vec_len line.old + 21 ≤ 96 }
    ensures added { line.new.items ≡ line.old.items ++ (decimal cpu ++ words.now ++ 10 ∷ []) }
    ensures short { length line.new.items ≤ length line.old.items + 20 }
{
    put_cpu(line, cpu);
    put_text(line, words);
    put_text(line, b"\n");
}
