//! The lines of the sites after a live run.
ghost use Rattle.std.specs.Prelude.{◌≡◌, ◌≤◌, length};
ghost use Rattle.module_image.specs.Text.{IsInside};
ghost use Rattle.poke_base.specs.Host.{Prints};
ghost use Rattle.live_trace.specs.SiteText.{bytes_after, code_here, live_site_lines};

use module_image::{Image, Site, code_of, site_line};
use poke_base::{Host, WriteFail};

/// Prints a line for each site of a module, ascending. A patched one holds the next of these bytes, which are those of all
/// patched sites, in order; a foreign one holds what the module has there.
pub fn print_live_sites<H: Host>(image: &Image, bytes: &[u8], host: &mut H) -> Result<(), WriteFail>
    ensures { Prints (H.outside host.old) (H.outside host.new) (live_site_lines image.now.base image.now.text image.now.sites bytes.now) result }
{
    let mut rest = bytes;
    for site in image.sites() {
        let (code, later) = cut(image, site, rest);
        host.print(&site_line(site, code))?;
        rest = later;
    }
    Ok(())
}

/// What a site of a module holds, where these are the bytes of the patched ones from this one on, and the bytes that are left.
fn cut<'a>(image: &'a Image, site: &Site, bytes: &'a [u8]) -> (&'a [u8], &'a [u8])
    requires { IsInside image.now.base (length image.now.text) site.now }
    ensures code { result.0.now ≡ code_here image.now.base image.now.text site.now bytes.now }
    ensures later { result.1.now ≡ bytes_after site.now bytes.now }
    ensures short { length result.0.now ≤ 5 }
{
    if site.foreign {
        (code_of(image.base(), image.text(), site), bytes)
    } else {
        bytes.split_at(bytes.len().min(usize::from(site.len)))
    }
}
