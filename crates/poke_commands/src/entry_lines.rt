//! The lines of table entries.
ghost use Rattle.std.specs.Prelude.{◌≡◌, ◌≤◌, ◌+◌, ◌*◌, codes, if◌then◌else◌, [], length};
ghost use Rattle.site_tables.specs.Entry.{entry_size};
ghost use Rattle.poke_commands.specs.Module.{call_line, entry_line, jump_line, trace_line};

use elf_module::Section;
use poke_base::{Line, put_hex, put_text};
use site_tables::{CallSite, JumpEntry, TableKind, call_site, jump_entry, trace_site};

/// The line of the entry of a table with a number below the count.
pub fn entry_line(kind: TableKind, section: &Section, i: u32) -> Line
    requires { entry_size kind * (i + 1) ≤ length section.now.content.now }
    ensures { result.items ≡ entry_line kind section.now.addr section.now.content.now (entry_size kind * i) }
{
    match kind {
        TableKind::Jump => jump_line(&jump_entry(section, i)),
        TableKind::Call => call_line(&call_site(section, i)),
        TableKind::Trace => trace_line(trace_site(section, i)),
    }
}

/// `jump CODE TARGET KEY unlikely` or `likely`, with `bit1` after it where that bit is set.
#[tactic(auto, using(poke_base::proofs::Numbers::line_room))]
fn jump_line(entry: &JumpEntry) -> Line
    ensures { result.items ≡ jump_line entry.now }
{
    let mut line = Line::new();
    put_text(&mut line, b"jump ");
    put_hex(&mut line, entry.code);
    put_text(&mut line, b" ");
    put_hex(&mut line, entry.target);
    put_text(&mut line, b" ");
    put_hex(&mut line, entry.key);
    put_text(&mut line, likely_word(entry.likely));
    put_text(&mut line, bit1_word(entry.bit1));
    put_text(&mut line, b"\n");
    line
}

/// `call ADDR KEY` or `tail ADDR KEY`, with `init` after it where that bit is set.
#[tactic(auto, using(poke_base::proofs::Numbers::line_room))]
fn call_line(site: &CallSite) -> Line
    ensures { result.items ≡ call_line site.now }
{
    let mut line = Line::new();
    put_text(&mut line, call_word(site.tail));
    put_hex(&mut line, site.addr);
    put_text(&mut line, b" ");
    put_hex(&mut line, site.key);
    put_text(&mut line, init_word(site.init));
    put_text(&mut line, b"\n");
    line
}

/// `trace ADDR`
#[tactic(auto, using(poke_base::proofs::Numbers::line_room))]
fn trace_line(at: u64) -> Line
    ensures { result.items ≡ trace_line at }
{
    let mut line = Line::new();
    put_text(&mut line, b"trace ");
    put_hex(&mut line, at);
    put_text(&mut line, b"\n");
    line
}

fn likely_word(likely: bool) -> &'static [u8]
    ensures word { result.now ≡ (if likely then codes " likely" else codes " unlikely") }
    ensures short { length result.now ≤ 9 }
{
    if likely { b" likely" } else { b" unlikely" }
}

fn bit1_word(bit1: bool) -> &'static [u8]
    ensures word { result.now ≡ (if bit1 then codes " bit1" else []) }
    ensures short { length result.now ≤ 5 }
{
    if bit1 { b" bit1" } else { b"" }
}

fn call_word(tail: bool) -> &'static [u8]
    ensures word { result.now ≡ (if tail then codes "tail " else codes "call ") }
    ensures short { length result.now ≤ 5 }
{
    if tail { b"tail " } else { b"call " }
}

fn init_word(init: bool) -> &'static [u8]
    ensures word { result.now ≡ (if init then codes " init" else []) }
    ensures short { length result.now ≤ 5 }
{
    if init { b" init" } else { b"" }
}
