//! The line of a site.
ghost use Rattle.std.specs.Prelude.{◌≡◌, ◌≤◌, codes, if◌then◌else◌, [], length};
ghost use Rattle.module_image.specs.SiteLine.{kind_name, site_line};
ghost use Rattle.module_image.specs.Sites.{code_at};
ghost use Rattle.module_image.specs.Text.{IsInside};

use crate::{Site, SiteKind};
use poke_base::{Line, put_bytes, put_hex, put_text};

/// `site ADDR KIND BYTES`: a site with the bytes that it holds, at most five, and `foreign` after them where it is.
#[tactic(auto, using(poke_base::proofs::Numbers::line_room))]
pub fn site_line(site: &Site, code: &[u8]) -> Line
    requires { length code.now ≤ 5 }
    ensures { result.items ≡ site_line site.now code.now }
{
    let mut line = Line::new();
    put_text(&mut line, b"site ");
    put_hex(&mut line, site.at);
    put_text(&mut line, b" ");
    put_text(&mut line, kind_name(&site.kind));
    put_text(&mut line, b" ");
    put_bytes(&mut line, code);
    put_text(&mut line, foreign_word(site.foreign));
    put_text(&mut line, b"\n");
    line
}

/// The bytes that a site holds in a text of its module, which begins at an address: at most five.
pub fn code_of<'a>(base: u64, text: &'a [u8], site: &Site) -> &'a [u8]
    requires { IsInside base (length text.now) site.now }
    ensures code { result.now ≡ code_at base text.now site.now.at site.now.len }
    ensures short { length result.now ≤ 5 }
{
    let from = (site.at - base) as usize;
    &text[from..from + usize::from(site.len)]
}

/// The word for what a site is patched to.
fn kind_name(kind: &SiteKind) -> &'static [u8]
    ensures name { result.now ≡ kind_name kind.now }
    ensures short { length result.now ≤ 5 }
{
    match kind {
        SiteKind::Jump { .. } => b"jump",
        SiteKind::Call { .. } => b"call",
        SiteKind::Tail { .. } => b"tail",
        SiteKind::Trace => b"trace",
    }
}

fn foreign_word(foreign: bool) -> &'static [u8]
    ensures word { result.now ≡ (if foreign then codes " foreign" else []) }
    ensures short { length result.now ≤ 8 }
{
    if foreign { b" foreign" } else { b"" }
}
