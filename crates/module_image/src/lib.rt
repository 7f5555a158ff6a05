//! Which modules are accepted, what they hold once the early forms are written, and why another is refused.
#![tactic(auto)]

mod aims;
mod checked;
mod early;
mod ending;
mod finding;
mod image;
mod key_starts;
mod lines;
mod listing;
mod lookup;
mod rows;
mod site_list;
mod site_units;
mod sweep;
mod swept;
mod text;
mod text_section;
mod writing;

pub use early::wanted_form;
pub use image::Image;
pub use lines::{code_of, site_line};
use module_parts::{Aim, Entry, EntryKind};
pub use module_parts::{Command, Key, KeyClass, Refused, Site, SiteKind, Unit};
use text::{Code, Text};
