//! Reading the file of a small module: its text, a jump table and a symbol table.
use crate::module::MODULE;
use elf_module::{ElfFile, ElfRefused};
use std::process::Abort;

/// The file with one byte changed.
fn changed(rt: &impl Abort, at: usize, byte: u8) -> [u8; 896] {
    let mut file = *MODULE;
    *file.get_mut(at).expect(rt, "a byte") = byte;
    file
}

#[test]
fn reads_a_module(rt: HostRuntime) {
    let file = ElfFile::read(MODULE).expect(&rt, "a module");
    assert_eq!(rt; file.section_count(), 9);
    assert_eq!(rt; file.symbol_count(), 3);
    let text = file.section_named(b".text").expect(&rt, "a text");
    assert_eq!(rt; (text.index, text.addr, text.size), (1, 0x40_1000, 10));
    assert_eq!(rt; text.content.first(), Some(&0x66));
    assert_eq!(rt;
        file.section_named(b".tex").map(|section| section.index),
        None
    );
    let symtab = file.section(6).expect(&rt, "a symbol table");
    assert_eq!(rt;
        (symtab.kind, symtab.link, symtab.name),
        (2, 7, b".symtab".as_slice())
    );
    let key = file.symbol(2).expect(&rt, "a key");
    assert_eq!(rt;
        (key.name, key.info, key.shndx, key.value),
        (b"j".as_slice(), 0x11, 5, 0x45_1000)
    );
    assert_eq!(rt; file.load(0x40_1000), Some(0x66));
    assert_eq!(rt; file.load(0x40_100a), None);
}

#[test]
fn refuses_each_prefix(rt: HostRuntime) {
    for len in 0..MODULE.len() {
        let why = if len < 64 {
            ElfRefused::Short(len as u64)
        } else {
            ElfRefused::Headers(0x28)
        };
        assert_eq!(rt; ElfFile::read(&MODULE[..len]).err(), Some(why));
    }
    assert_eq!(rt; ElfFile::read(&[0; 63]).err(), Some(ElfRefused::Short(63)));
    assert_eq!(rt; ElfFile::read(&[0; 64]).err(), Some(ElfRefused::Magic(0)));
}

#[test]
fn refuses_each_changed_byte(rt: HostRuntime) {
    let rows = [
        (0x03, b'G', ElfRefused::Magic(0)),
        (0x04, 1, ElfRefused::Class(4)),
        (0x05, 2, ElfRefused::Data(5)),
        (0x06, 0, ElfRefused::Version(6)),
        (0x14, 2, ElfRefused::Version(0x14)),
        (0x12, 3, ElfRefused::Machine(0x12)),
        (0x10, 3, ElfRefused::Kind(0x10)),
        (0x10, 1, ElfRefused::Relocatable(0x10)),
        (0x3a, 63, ElfRefused::Headers(0x3a)),
        (0x3c, 0, ElfRefused::Headers(0x3c)),
        (0x28, 0x41, ElfRefused::Headers(0x28)),
        (0x3e, 9, ElfRefused::Headers(0x3e)),
        (0x299, 4, ElfRefused::Section(5)),
        (0x219, 4, ElfRefused::Section(3)),
        (0x344, 1, ElfRefused::Names(8)),
        (0x1c0, 0x54, ElfRefused::Names(2)),
        (0x133, b'x', ElfRefused::Names(8)),
        (0x2e0, 0x47, ElfRefused::Symbols(0)),
        (0x2e8, 1, ElfRefused::Symbols(0)),
        (0x2e8, 9, ElfRefused::Symbols(0)),
        (0x98, 5, ElfRefused::Symbols(1)),
        (0xd4, b'x', ElfRefused::Symbols(2)),
    ];
    for (at, byte, why) in rows {
        let file = changed(&rt, at, byte);
        assert_eq!(rt; ElfFile::read(&file).err(), Some(why), "at {at}");
    }
}

#[test]
fn loads_the_first_section(rt: HostRuntime) {
    let rows = [
        (0x1d2, 0x40, 0x40_1000, Some(0x66)),
        (0x1d2, 0x40, 0x40_100a, Some(0x02)),
        (0x184, 8, 0x40_1000, Some(0)),
        (0x184, 0, 0x40_1000, None),
        (0x188, 4, 0x40_1000, None),
    ];
    for (at, byte, address, loaded) in rows {
        let bytes = changed(&rt, at, byte);
        let file = ElfFile::read(&bytes).expect(&rt, "a module");
        assert_eq!(rt; file.load(address), loaded, "at {at}");
    }
}

#[test]
fn fields_are_read_without_names(rt: HostRuntime) {
    let file = ElfFile::read(MODULE).expect(&rt, "a module");
    for i in 0..9 {
        let section = file.section(i).expect(&rt, "a section");
        let header = file.section_header(i).expect(&rt, "a header");
        assert_eq!(rt;
            (header.index, header.kind, header.flags),
            (section.index, section.kind, section.flags)
        );
        assert_eq!(rt;
            (header.addr, header.size, header.link),
            (section.addr, section.size, section.link)
        );
        assert_eq!(rt; header.content, section.content);
    }
    assert_eq!(rt; file.section_header(9), None);
    let entry = file.symbol_entry(1).expect(&rt, "a symbol");
    assert_eq!(rt;
        (entry.info, entry.shndx, entry.value),
        (0x12, 1, 0x40_1000)
    );
    assert_eq!(rt; file.symbol_entry(3), None);
    assert_eq!(rt; file.byte_count(), 896);
}

/// Whether the section with an index has a name, where there is one.
fn is_section(file: &ElfFile<'_>, i: u16, name: &[u8]) -> Option<bool> {
    if i < file.section_count() {
        Some(file.is_section_named(i, name))
    } else {
        None
    }
}

/// Whether the symbol with a number has a name, where there is one.
fn is_symbol(file: &ElfFile<'_>, i: u32, name: &[u8]) -> Option<bool> {
    if i < file.symbol_count() {
        Some(file.is_symbol_named(i, name))
    } else {
        None
    }
}

#[test]
fn names_are_compared_whole(rt: HostRuntime) {
    let file = ElfFile::read(MODULE).expect(&rt, "a module");
    let rows: [(&[u8], bool, bool); 6] = [
        (b".text", true, false),
        (b".tex", false, false),
        (b".textx", false, false),
        (b"f", false, true),
        (b"", false, false),
        (b"fj", false, false),
    ];
    for (name, section, symbol) in rows {
        assert_eq!(rt; is_section(&file, 1, name), Some(section));
        assert_eq!(rt; is_symbol(&file, 1, name), Some(symbol));
    }
    assert_eq!(rt; is_symbol(&file, 0, b""), Some(true));
    assert_eq!(rt; is_section(&file, 9, b""), None);
    assert_eq!(rt; is_symbol(&file, 3, b""), None);
}

/// An empty section stands in the file too: its offset is at most the file's length.
#[test]
fn an_empty_section_stands_in_the_file(rt: HostRuntime) {
    let rows = [(0x80, None), (0x81, Some(ElfRefused::Section(3)))];
    for (low, why) in rows {
        let mut bytes = changed(&rt, 0x219, 3);
        *bytes.get_mut(0x218).expect(&rt, "a byte") = low;
        assert_eq!(rt; ElfFile::read(&bytes).err(), why, "at {low}");
    }
}

#[test]
fn loads_sixteen_bytes(rt: HostRuntime) {
    let rows = [
        (0x1d2, 0x40, 0x40_1000),
        (0x1d2, 0x40, 0x40_0ff8),
        (0x1d2, 0x40, 0x40_1009),
        (0x184, 8, 0x40_0ff1),
        (0x184, 0, 0x40_1000),
        (0x184, 8, u64::MAX - 4),
    ];
    for (at, byte, address) in rows {
        let bytes = changed(&rt, at, byte);
        let file = ElfFile::read(&bytes).expect(&rt, "a module");
        let loaded = file.load_16(address);
        for i in 0..16 {
            assert_eq!(rt;
                loaded.get(i),
                Some(&file.load(address.wrapping_add(i as u64))),
                "at {at}, {i}"
            );
        }
    }
}
