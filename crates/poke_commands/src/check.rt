//! The command `check`: whether a module is accepted, and what it then is.
ghost use Rattle.std.specs.Prelude.{◌≡◌};
ghost use Rattle.poke_base.specs.Host.{Prints};
ghost use Rattle.poke_commands.specs.Check.{accepted_text, text_line};
ghost use Rattle.poke_commands.specs.Command.{Check as CheckRow};
ghost use Rattle.poke_commands.specs.Runs.{Does};

use crate::module_file::read_module;
use crate::site_lines::print_sites;
use module_image::Image;
use poke_base::{Host, Line, WriteFail, put_dec, put_hex, put_text};
use poke_faults::Fault;
use std::alloc::Global;

/// Prints the text and the sites of a module, a line each, and that it is accepted. The module is
/// read first, once, and no other file is.
///
/// # Errors
/// `Read`, `Refused` for the first thing that is wrong with the module, or `Memory`: nothing was
/// printed. `Write`: a prefix of the text was printed.
pub fn check<H: Host>(alloc: Global, name: &str, host: &mut H) -> Result<(), Fault>
    ensures { Does (CheckRow name.now) (H.outside host.old) (H.outside host.new) result }
{
    let image = read_module(alloc, name, host)?;
    print_image(&image, host)?;
    Ok(())
}

/// Prints a module: its text, its sites, and that it is accepted.
fn print_image<H: Host>(image: &Image, host: &mut H) -> Result<(), WriteFail>
    ensures { Prints (H.outside host.old) (H.outside host.new) (accepted_text image.now.base image.now.text image.now.sites) result }
{
    let text = image.text();
    host.print(&text_line(image.base(), text))?;
    print_sites(image, text, host)?;
    host.print(b"accepted\n")
}

/// `text BASE SIZE`, the size in bytes, in decimal.
#[tactic(auto, using(poke_base::proofs::Numbers::line_room))]
fn text_line(base: u64, text: &[u8]) -> Line
    ensures { result.items ≡ text_line base text.now }
{
    let mut line = Line::new();
    put_text(&mut line, b"text ");
    put_hex(&mut line, base);
    put_text(&mut line, b" ");
    put_dec(&mut line, text.len() as u64);
    put_text(&mut line, b"\n");
    line
}
