// The twelve calls of a line as data, and what they answer.
use crate::answers::{Delivery, Stage};

#[derive(Clone, Copy, Debug, PartialEq, Eq)]
pub enum Call<P> {
    Open,
    Join(u64, usize),
    Read(u64, usize, usize),
    Write(u64, usize, usize, P),
    Leave(u64, usize),
    Submit(u64),
    GiveUp(u64),
    Resend(u64),
    Deliver(usize),
    Lose(usize),
    Clock(usize, u64),
    Fate(u64),
}

// What a call gives that is not refused.
#[derive(Clone, Copy, Debug, PartialEq, Eq)]
pub enum Answer<P> {
    Accepted,
    // The number of a new transaction, or how many messages were sent.
    Number(u64),
    // What an accepted read gave: a payload, or absent.
    Payload(Option<P>),
    Delivered(Delivery),
    Stands(Stage),
}
