//! The forms that a patched site may hold: how they are spelt in bytes, both ways, and the changes
//! of sites from one form to another.
#![tactic(auto)]

pub mod changes;
pub mod displacement;
pub mod forms;
pub mod held;

pub use changes::Changes;
pub use forms::{Change, Form, NoReach, decode_form};
pub use held::Held;
