//! Writing a module.
ghost use Rattle.std.specs.Prelude.{◌≡◌, ◌≤◌, ◌+◌, ◌*◌, ◌++◌, [], drop, length, replicate, true, OnOk, OnErr};
ghost use Rattle.elf_build.specs.Fits.{fits};
ghost use Rattle.elf_build.specs.File.{body, part_bytes, elf_header, file_of, filled, headers_from, laid, parts, section_header, header_of};

use crate::Plan;
use crate::contents::{add, add_data, add_names, add_symbols, add_table, fill};
use crate::sections::{Header, Part, elf_header};
use crate::tables::PlanTable;
use arrayvec::ArrayVec;
use poke_base::NoMemory;

/// The section headers but the first.
type Headers = ArrayVec<u8, 512>;

/// The names of the sections, each with an ending zero.
const SECTION_NAMES: &[u8] =
    b"\0.text\0__jump_table\0.static_call_sites\0__mcount_loc\0.data\0.symtab\0.strtab\0.shstrtab\0";

/// The sections but the first, in index order.
#[tactic(auto, unfolding(crate::specs::File::parts))]
fn parts() -> [Part; 8]
    ensures { result ≡ parts }
{
    [
        Part::Text,
        Part::Entries(PlanTable::Jumps),
        Part::Entries(PlanTable::Calls),
        Part::Entries(PlanTable::Traces),
        Part::Data,
        Part::Symbols,
        Part::Names,
        Part::SectionNames,
    ]
}

/// Adds what stands in a section.
fn add_content(out: &mut Vec<u8>, plan: &Plan, part: Part) -> Result<(), NoMemory>
    requires { fits plan.now ≡ true }
    ensures { OnOk result (out.new.items ≡ out.old.items ++ part_bytes plan.now part) }
{
    match part {
        Part::Text => add(out, &plan.text),
        Part::Entries(table) => add_table(out, plan, table),
        Part::Data => add_data(out, &plan.keys),
        Part::Symbols => add_symbols(out, plan),
        Part::Names => add_names(out, plan),
        Part::SectionNames => add(out, SECTION_NAMES),
    }
}

/// Adds what stands in a section at the next multiple of 16, and its header to the headers.
fn add_part(
    out: &mut Vec<u8>,
    headers: &mut Headers,
    plan: &Plan,
    part: Part,
) -> Result<(), NoMemory>
    requires fits { fits plan.now ≡ true }
    requires room { length headers.old.items ≤ 448 }
    ensures content { OnOk result (out.new.items ≡ filled out.old.items ++ part_bytes plan.now part) }
    ensures header { OnOk result (headers.new.items ≡ headers.old.items ++ section_header (header_of plan.now part) (length (filled out.old.items)) (length (part_bytes plan.now part))) }
    ensures room { OnOk result (length headers.new.items ≡ length headers.old.items + 64) }
{
    fill(out)?;
    let offset = out.len();
    add_content(out, plan, part)?;
    let size = out.len() - offset;
    add_header(headers, plan, part, offset as u64, size as u64);
    Ok(())
}

/// Adds the header of a section to the headers.
fn add_header(headers: &mut Headers, plan: &Plan, part: Part, offset: u64, size: u64)
    requires fits { fits plan.now ≡ true }
    requires room { length headers.old.items ≤ 448 }
    ensures header { headers.new.items ≡ headers.old.items ++ section_header (header_of plan.now part) offset size }
    ensures room { length headers.new.items ≡ length headers.old.items + 64 }
{
    let record = Header::of(plan, part).record(offset, size);
    let _ = headers.try_extend_from_slice(&record);
}

/// Adds what stands in some sections, and their headers to the headers.
fn add_parts(
    out: &mut Vec<u8>,
    headers: &mut Headers,
    plan: &Plan,
    parts: &[Part],
) -> Result<(), NoMemory>
    requires fits { fits plan.now ≡ true }
    requires room { length headers.old.items + 64 * length parts.now ≤ 512 }
    ensures body { OnOk result (out.new.items ≡ laid plan.now out.old.items parts.now) }
    ensures headers { OnOk result (headers.new.items ≡ headers.old.items ++ headers_from plan.now out.old.items parts.now) }
{
    for part in parts {
        add_part(out, headers, plan, *part)?;
    }
    fill(out)
}

/// Puts bytes into the prefix of a file.
fn put_prefix(file: &mut [u8], bytes: &[u8])
    requires { length bytes.now ≤ length file.old }
    ensures { file.new ≡ bytes.now ++ drop (length bytes.now) file.old }
{
    file[..bytes.len()].copy_from_slice(bytes);
}

/// Puts the ELF header into the first 64 bytes; the section headers follow what `out` holds.
fn put_header(out: &mut Vec<u8>)
    requires { 64 ≤ length out.old.items }
    ensures { out.new.items ≡ elf_header (length out.old.items) ++ drop 64 out.old.items }
{
    let header = elf_header(out.len() as u64);
    put_prefix(out.as_mut_slice(), &header);
}

/// Writes the ELF header and the contents of the sections, and gathers their headers.
fn write_contents(plan: &Plan, out: &mut Vec<u8>, headers: &mut Headers) -> Result<(), NoMemory>
    requires fits { fits plan.now ≡ true }
    requires empty { out.old.items ≡ [] }
    requires no_headers { headers.old.items ≡ [] }
    ensures file { OnOk result (out.new.items ≡ elf_header (length (body plan.now)) ++ drop 64 (body plan.now)) }
    ensures headers { OnOk result (headers.new.items ≡ headers_from plan.now (replicate 64 0) parts) }
{
    add(out, &[0; 64])?;
    add_parts(out, headers, plan, &parts())?;
    put_header(out);
    Ok(())
}

/// Writes the file of the plan.
fn write_file(plan: &Plan, out: &mut Vec<u8>) -> Result<(), NoMemory>
    requires fits { fits plan.now ≡ true }
    requires empty { out.old.items ≡ [] }
    ensures { OnOk result (out.new.items ≡ file_of plan.now) }
{
    let mut headers = Headers::new();
    write_contents(plan, out, &mut headers)?;
    add(out, &[0; 64])?;
    add(out, &headers)
}

/// Writes the file of a plan that fits: the ELF header, the contents of the sections, each at the next
/// multiple of 16, and the section headers, which begin at a multiple of 16 and end the file. `out` has
/// to be empty.
///
/// # Errors
/// Out of memory, after which `out` is empty.
pub fn write(plan: &Plan, out: &mut Vec<u8>) -> Result<(), NoMemory>
    requires fits { fits plan.now ≡ true }
    requires empty { out.old.items ≡ [] }
    ensures file { OnOk result (out.new.items ≡ file_of plan.now) }
    ensures nothing { OnErr result (out.new.items ≡ []) }
{
    match write_file(plan, out) {
        Ok(()) => Ok(()),
        Err(NoMemory) => {
            out.clear();
            Err(NoMemory)
        }
    }
}
