// The post: at most 64 messages that wait for delivery. New ones go to its end.
#![tactic(auto)]

mod calls;
mod parts;

pub use parts::{NoRoom, Post};
