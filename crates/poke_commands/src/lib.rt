//! The commands that run no processor, each as one call over a host that the caller hands in, and how a command reads its
//! files.
#![tactic(auto)]

pub mod bench;
pub mod check;
pub mod dry_run;
mod entry_lines;
pub mod input;
pub mod make;
pub mod module_file;
pub mod plan;
mod print_table;
pub mod script_file;
pub mod show;
mod site_lines;
pub mod wants;
