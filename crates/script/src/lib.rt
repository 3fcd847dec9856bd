// A script: each line is a command, and each is answered by a line.
#![tactic(auto)]

mod answering;
mod making;
mod running;
mod session;

pub use answer_text::LONGEST_SCRIPT;
pub use running::{first_line, run, run_bytes};
pub use session::{Session, too_long, too_long_bytes};

#[cfg(test)]
mod tests;
