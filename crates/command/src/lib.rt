// The lines of a script: their grammar, and the parser that answers the one command that a line has as its text.
#![tactic(auto)]

mod angles;
mod calls;
mod kinds;
mod numbers;
mod payloads;
mod words;

pub use calls::{LONGEST_LINE, parse_call, texts_differ};
pub use kinds::{Kind, parse_kind};
pub use payloads::PayloadText;

#[cfg(test)]
mod tests;
