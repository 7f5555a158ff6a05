//! What the sites of a running machine hold.
ghost use Rattle.std.specs.Prelude.{◌≡◌, ◌<◌, [], length};
ghost use Rattle.script_runner.specs.TraceText.{numbered_line};

use super::World;
use module_image::{Image, code_of, site_line};
use poke_base::{Line, put_text};

impl World {
    ghost use Rattle.std.specs.Prelude.{◌≡◌, ◌<◌, [], length};
    ghost use Rattle.script_runner.specs.TraceText.{numbered_line};
    ghost use Rattle.script_runner.specs.World.{StandsFor};
    ghost use Rattle.switching.specs.Laws.{held_text};
    ghost use Rattle.switching.specs.State.{State};

    /// The module that runs.
    pub fn image(&self) -> &Image
        ensures { result.now ≡ self.now.image }
    {
        &self.image
    }

    /// Puts the line of a site, by its number, into an empty line: where it is, what it is patched to, and the bytes that it
    /// now holds.
    #[tactic(auto, using(crate::proofs::SiteLines::text_size, crate::proofs::SiteLines::site_line_is))]
    pub fn site_line(&self, site: u32, line: &mut Line)
        requires there { site < length self.now.image.sites }
        requires empty { line.old.items ≡ [] }
        ensures { (s : State) → StandsFor self.now s → line.new.items ≡ numbered_line self.now.image (held_text self.now.image s) site }
    {
        put_site(&self.image, self.text.bytes(), site, line);
    }
}

/// Puts the line of a site, by its number, into an empty line, with what it holds in this text of the module.
fn put_site(image: &Image, text: &[u8], site: u32, line: &mut Line)
    requires there { site < length image.now.sites }
    requires same { length text.now ≡ length image.now.text }
    requires empty { line.old.items ≡ [] }
    ensures { line.new.items ≡ numbered_line image.now text.now site }
{
    let site = &image.sites()[site as usize];
    put_text(line, &site_line(site, code_of(image.base(), text, site)));
}
