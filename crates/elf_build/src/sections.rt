//! The sections of a written module, their headers, and the ELF header.
ghost use Rattle.std.specs.Prelude.{◌≡◌, ◌<◌, ◌+◌, ◌^◌, length};
ghost use Rattle.elf_build.specs.File.{elf_header, header_of, loaded_header, section_header, strings_header, symbol};

use crate::Plan;
use crate::gabi::{
    EHDR_SIZE, ELFCLASS64, ELFDATA2LSB, EM_X86_64, ET_EXEC, EV_CURRENT, SHDR_SIZE, SHF_ALLOC,
    SHF_EXECINSTR, SHF_WRITE, SHT_PROGBITS, SHT_STRTAB, SHT_SYMTAB, SYM_SIZE,
};
use crate::put::{Record, put, put_u16, put_u32, put_u64};
use crate::tables::{PlanTable, data_at, table_at};

/// The indices of the sections that others name.
pub const TEXT_SECTION: u16 = 1;

pub const DATA_SECTION: u16 = 5;

const NAMES_SECTION: u32 = 7;

const SECTION_NAMES_SECTION: u16 = 8;

/// How many sections there are, with the first, which is none.
const SECTION_COUNT: u16 = 9;

/// Each section begins at a multiple of this.
const ALIGNMENT: u64 = 16;

/// A section but the first.
#[derive(Clone, Copy, Debug, PartialEq, Eq)]
pub enum Part {
    /// `.text`
    Text,
    /// The entries of a table.
    Entries(PlanTable),
    /// `.data`, where the keys stand.
    Data,
    /// `.symtab`
    Symbols,
    /// `.strtab`, the names of the symbols.
    Names,
    /// `.shstrtab`, the names of the sections.
    SectionNames,
}

/// What a section's header says beside the place of its bytes (System V gABI: section header).
#[derive(Clone, Copy, Debug, PartialEq, Eq)]
pub struct Header {
    /// Where its name stands in the table of names.
    pub name: u32,
    pub kind: u32,
    pub flags: u64,
    pub addr: u64,
    pub link: u32,
    pub info: u32,
    /// How many bytes an entry has, where all have the same number.
    pub entsize: u64,
}

impl Header {
    /// The header of a section that is loaded at an address.
    fn loaded(name: u32, flags: u64, addr: u64) -> Header
        ensures { result ≡ loaded_header name flags addr }
    {
        Header {
            name,
            kind: SHT_PROGBITS,
            flags,
            addr,
            link: 0,
            info: 0,
            entsize: 0,
        }
    }

    /// The header of a string table.
    fn strings(name: u32) -> Header
        ensures { result ≡ strings_header name }
    {
        Header {
            name,
            kind: SHT_STRTAB,
            flags: 0,
            addr: 0,
            link: 0,
            info: 0,
            entsize: 0,
        }
    }

    /// The header of a section of the plan.
    pub fn of(plan: &Plan, part: Part) -> Header
        requires { plan.now.base + 0x50000 < 2 ^ 64 }
        ensures { result ≡ header_of plan.now part }
    {
        match part {
            Part::Text => Header::loaded(1, SHF_ALLOC | SHF_EXECINSTR, plan.base),
            Part::Entries(PlanTable::Jumps) => Header::loaded(
                7,
                SHF_ALLOC | SHF_WRITE,
                table_at(plan, PlanTable::Jumps),
            ),
            Part::Entries(PlanTable::Calls) => Header::loaded(
                20,
                SHF_ALLOC | SHF_WRITE,
                table_at(plan, PlanTable::Calls),
            ),
            Part::Entries(PlanTable::Traces) => Header::loaded(
                39,
                SHF_ALLOC,
                table_at(plan, PlanTable::Traces),
            ),
            Part::Data => Header::loaded(52, SHF_ALLOC | SHF_WRITE, data_at(plan)),
            Part::Symbols => Header {
                name: 58,
                kind: SHT_SYMTAB,
                flags: 0,
                addr: 0,
                link: NAMES_SECTION,
                info: 1,
                entsize: SYM_SIZE,
            },
            Part::Names => Header::strings(66),
            Part::SectionNames => Header::strings(74),
        }
    }

    /// The 64 bytes of the header, with the place of the section's bytes.
    pub fn record(&self, offset: u64, size: u64) -> Record
        ensures bytes { result.items ≡ section_header self.now offset size }
        ensures len { length result.items ≡ 64 }
    {
        let mut out = Record::new();
        put_u32(&mut out, self.name);
        put_u32(&mut out, self.kind);
        put_u64(&mut out, self.flags);
        put_u64(&mut out, self.addr);
        put_u64(&mut out, offset);
        put_u64(&mut out, size);
        put_u32(&mut out, self.link);
        put_u32(&mut out, self.info);
        put_u64(&mut out, ALIGNMENT);
        put_u64(&mut out, self.entsize);
        out
    }
}

/// The ELF header, with the offset of the section headers.
#[tactic(auto, unfolding(crate::specs::File::elf_header))]
pub fn elf_header(shoff: u64) -> Record
    ensures bytes { result.items ≡ elf_header shoff }
    ensures len { length result.items ≡ 64 }
{
    let mut out = Record::new();
    put(
        &mut out,
        &[
            0x7f,
            b'E',
            b'L',
            b'F',
            ELFCLASS64,
            ELFDATA2LSB,
            EV_CURRENT,
            0,
        ],
    );
    put_u64(&mut out, 0);
    put_u16(&mut out, ET_EXEC);
    put_u16(&mut out, EM_X86_64);
    put_u32(&mut out, u32::from(EV_CURRENT));
    put_u64(&mut out, 0);
    put_u64(&mut out, 0);
    put_u64(&mut out, shoff);
    put_u32(&mut out, 0);
    put_u16(&mut out, EHDR_SIZE);
    put_u32(&mut out, 0);
    put_u16(&mut out, SHDR_SIZE);
    put_u16(&mut out, SECTION_COUNT);
    put_u16(&mut out, SECTION_NAMES_SECTION);
    out
}

/// A symbol: the place of its name, its type, its section, where it stands and its size in bytes.
pub fn symbol(name: u32, info: u8, shndx: u16, value: u64, size: u64) -> Record
    ensures { result.items ≡ symbol name info shndx value size }
{
    let mut out = Record::new();
    put_u32(&mut out, name);
    put(&mut out, &[info, 0]);
    put_u16(&mut out, shndx);
    put_u64(&mut out, value);
    put_u64(&mut out, size);
    out
}
