//! The lines of a module's sites.
ghost use Rattle.std.specs.Prelude.{◌≡◌, length};
ghost use Rattle.poke_base.specs.Host.{Prints};
ghost use Rattle.module_image.specs.SiteLine.{site_lines};

use module_image::{Image, code_of, site_line};
use poke_base::{Host, WriteFail};

/// Prints a line for each site of a module, ascending, with what it holds in this text of the module.
pub fn print_sites<H: Host>(image: &Image, text: &[u8], host: &mut H) -> Result<(), WriteFail>
    requires { length text.now ≡ length image.now.text }
    ensures { Prints (H.outside host.old) (H.outside host.new) (site_lines image.now.base text.now image.now.sites) result }
{
    let base = image.base();
    for site in image.sites() {
        host.print(&site_line(site, code_of(base, text, site)))?;
    }
    Ok(())
}
