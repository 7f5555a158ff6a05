//! Finding the text of a file.
ghost use Rattle.std.specs.Prelude.{◌≡◌, ◌<◌, ◌≤◌, ◌↔◌, ◌^◌, length, slice_get, Some, IsTrue, IfOk};
ghost use Rattle.elf_module.specs.Elf.{section_of};
ghost use Rattle.module_names.specs.Entries.{text_section, text_sections};
ghost use Rattle.module_image.specs.Refusals.{HasBadSize, Passes, Tries, past_text_count, past_text_size};
ghost use Rattle.module_image.specs.Tables.{is_text_in};
ghost use Rattle.module_image.specs.Text.{IsText};

use crate::{Refused, Text};
use elf_module::{ElfFile, Section};

/// The name of the section that holds the text.
const TEXT_NAME: &[u8] = b".text";

/// How many bytes a text has at most.
const MOST_BYTES: usize = 65_536;

/// The text of a file: its one section `.text`.
///
/// # Errors
/// `TextCount` where there isn't exactly one; `TextSize` where it is empty, longer than 65,536 bytes, or
/// reaches past the last address.
pub fn find_text<'a>(file: &ElfFile<'a>) -> Result<Text<'a>, Refused>
    ensures tried { Tries file.now past_text_size result }
    ensures found { IfOk result (IsText file.now) }
{
    let section = only_text(file)?;
    fitting_text(file, &section)
}

/// The one section of the text's name.
///
/// # Errors
/// `TextCount` where there isn't exactly one.
fn only_text<'a>(file: &ElfFile<'a>) -> Result<Section<'a>, Refused>
    ensures tried { Tries file.now past_text_count result }
    ensures found { IfOk result (λ section. Some (section_of section) ≡ text_section file.now) }
    ensures sized { IfOk result (λ section. length section.content.now ≤ section.size) }
{
    let count = text_count(file);
    match file.section_named(TEXT_NAME) {
        Some(section) if count == 1 => Ok(section),
        _ => Err(Refused::TextCount(count)),
    }
}

/// How many sections have the text's name.
fn text_count(file: &ElfFile<'_>) -> u64
    ensures { result ≡ length (text_sections file.now) }
{
    let mut count = 0;
    for i in 0..file.section_count() {
        if is_text(file, i) {
            count += 1;
        }
    }
    count
}

/// Whether the section with an index below the count has the text's name.
fn is_text(file: &ElfFile<'_>, i: u16) -> bool
    requires { i < length file.now.sections }
    ensures { result ≡ is_text_in (slice_get file.now.sections i) }
{
    file.is_section_named(i, TEXT_NAME)
}

/// The text in the section that holds it.
///
/// # Errors
/// `TextSize` where it is empty, longer than 65,536 bytes, or reaches past the last address.
fn fitting_text<'a>(file: &ElfFile<'_>, section: &Section<'a>) -> Result<Text<'a>, Refused>
    requires passed { Passes file.now past_text_count }
    requires found { Some (section_of section.now) ≡ text_section file.now }
    requires sized { length section.now.content.now ≤ section.now.size }
    ensures tried { Tries file.now past_text_size result }
    ensures found { IfOk result (IsText file.now) }
{
    if has_bad_size(section) {
        return Err(Refused::TextSize(section.size));
    }
    Ok(Text {
        index: section.index,
        base: section.addr,
        bytes: section.content,
    })
}

/// Whether a section is empty, too long for a text, or reaches past the last address.
fn has_bad_size(section: &Section<'_>) -> bool
    ensures { IsTrue result ↔ HasBadSize (section_of section.now) }
{
    if section.content.is_empty() {
        return true;
    }
    if section.content.len() > MOST_BYTES {
        return true;
    }
    section.addr.checked_add(section.size).is_none()
}
