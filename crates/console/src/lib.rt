//! The console's commands, and the line that answers each.
#![tactic(auto)]

mod command;
mod complaint;
mod desk;
mod lines;

pub use command::{Command, Question};
pub use complaint::Complaint;
pub use desk::{Desk, Failure};
