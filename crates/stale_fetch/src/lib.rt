//! The text that processors fetch from, which may give each of them any value that a byte has had
//! since that processor last serialised.
#![tactic(auto)]

mod choice;
pub mod laws;
pub mod log;
mod row;
pub mod text;
mod values;
pub mod window;

pub use log::LogText;
pub use text::Text;
pub use window::WindowText;
