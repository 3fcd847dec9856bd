// Makes the same lists of calls on both makes of store, and prints what they answer.
#![tactic(auto)]

use anyhow::Context;
use chain::Chain;
use journal::Journal;
use std::fmt;
use store::{Store, Unmade, Version};
use store_runs::{StoreAnswer, StoreCall, StoreReply, run_both, run_cleared};

const ITEMS: usize = 3;

fn print_answer(rt: &HostRuntime, answer: StoreAnswer<u64>) -> anyhow::Result<()> {
    match answer {
        Ok(StoreReply::Version(Some(Version { time, payload }))) => {
            println!(rt; "  newest {payload} of {time}")?;
        }
        Ok(StoreReply::Version(None)) => println!(rt; "  no version")?,
        Ok(StoreReply::Payload(Some(payload))) => println!(rt; "  staged {payload}")?,
        Ok(StoreReply::Payload(None)) => println!(rt; "  none staged")?,
        Ok(StoreReply::Done) => println!(rt; "  done")?,
        Err(refusal) => println!(rt; "  refused: {refusal}")?,
    }
    Ok(())
}

// Clears the store, makes the calls and prints the answers.
fn try_calls<S: Store<Payload = u64>>(
    rt: &HostRuntime,
    title: &str,
    store: &mut S,
    calls: &[StoreCall<u64>],
) -> anyhow::Result<()> {
    println!(rt; " {title}:")?;
    let answers = run_cleared(rt.alloc(), store, calls)?;
    for answer in &answers {
        print_answer(rt, *answer)?;
    }
    Ok(())
}

// Fills two rows, is refused a third, replaces where it is full, and uses a row again that was given back.
const FILLING: [StoreCall<u64>; 10] = [
    StoreCall::Stage {
        item: 0,
        payload: 10,
    },
    StoreCall::Stage {
        item: 1,
        payload: 11,
    },
    StoreCall::Stage {
        item: 2,
        payload: 12,
    },
    StoreCall::Stage {
        item: 0,
        payload: 20,
    },
    StoreCall::Staged { item: 0 },
    StoreCall::Unstage { item: 1 },
    StoreCall::Staged { item: 1 },
    StoreCall::Stage {
        item: 2,
        payload: 22,
    },
    StoreCall::Stage {
        item: 1,
        payload: 21,
    },
    StoreCall::Unstage { item: 1 },
];

// Installs at a later, an equal and an earlier time, and fills the rows with versions.
const INSTALLING: [StoreCall<u64>; 14] = [
    StoreCall::Install { item: 0, time: 100 },
    StoreCall::Stage {
        item: 0,
        payload: 1,
    },
    StoreCall::Install { item: 0, time: 100 },
    StoreCall::Newest { item: 0 },
    StoreCall::Staged { item: 0 },
    StoreCall::Stage {
        item: 0,
        payload: 2,
    },
    StoreCall::Install { item: 0, time: 100 },
    StoreCall::Install { item: 0, time: 99 },
    StoreCall::Staged { item: 0 },
    StoreCall::Newest { item: 0 },
    StoreCall::Install { item: 0, time: 101 },
    StoreCall::Newest { item: 0 },
    StoreCall::Newest { item: 1 },
    StoreCall::Stage {
        item: 1,
        payload: 3,
    },
];

// Clears what is staged and installed, and starts again from time 0.
const CLEARING: [StoreCall<u64>; 9] = [
    StoreCall::Stage {
        item: 0,
        payload: 5,
    },
    StoreCall::Install { item: 0, time: 7 },
    StoreCall::Stage {
        item: 1,
        payload: 6,
    },
    StoreCall::Clear,
    StoreCall::Newest { item: 0 },
    StoreCall::Staged { item: 1 },
    StoreCall::Stage {
        item: 0,
        payload: 8,
    },
    StoreCall::Install { item: 0, time: 0 },
    StoreCall::Newest { item: 0 },
];

// The last item, the first number that is none, and the last number of all.
const EDGES: [StoreCall<u64>; 12] = [
    StoreCall::Stage {
        item: 2,
        payload: 9,
    },
    StoreCall::Newest { item: 2 },
    StoreCall::Newest { item: 3 },
    StoreCall::Staged { item: 3 },
    StoreCall::Stage {
        item: 3,
        payload: 9,
    },
    StoreCall::Unstage { item: 3 },
    StoreCall::Install { item: 3, time: 1 },
    StoreCall::Newest { item: usize::MAX },
    StoreCall::Staged { item: usize::MAX },
    StoreCall::Stage {
        item: usize::MAX,
        payload: 9,
    },
    StoreCall::Unstage { item: usize::MAX },
    StoreCall::Install {
        item: usize::MAX,
        time: 1,
    },
];

// Makes the lists on a store of three items and two rows.
fn try_lists<S: Store<Payload = u64>>(
    rt: &HostRuntime,
    make: &str,
    store: &mut S,
) -> anyhow::Result<()> {
    println!(rt; "{make}")?;
    try_calls(rt, "filling", store, &FILLING)?;
    try_calls(rt, "installing", store, &INSTALLING)?;
    try_calls(rt, "clearing", store, &CLEARING)?;
    try_calls(rt, "items at the edge", store, &EDGES)
}

// How many versions a store takes before it refuses one.
fn versions_taken<S: Store<Payload = u64>>(store: &mut S) -> u64 {
    let mut count: u64 = 0;
    // The times themselves, and no index.
    for time in 1..5002u64 {
        if store.stage(0, time).is_ok() && store.install(0, time).is_ok() {
            count = count.saturating_add(1);
        }
    }
    count
}

// A store of each make, of three items and so many rows.
fn both_makes(
    rt: &HostRuntime,
    rows: usize,
) -> anyhow::Result<(Journal<u64, ITEMS>, Chain<u64, ITEMS>)> {
    // Without the cause: what the program says of a store that cannot be made is these words alone.
    let journal = Journal::new(rt.alloc(), rows).ok().context("no journal")?;
    let chain = Chain::new(rt.alloc(), rows).ok().context("no chain")?;
    Ok((journal, chain))
}

// Prints how many versions each make takes when it is given so many rows.
fn try_rows(rt: &HostRuntime, rows: usize) -> anyhow::Result<()> {
    let (mut journal, mut chain) = both_makes(rt, rows)?;
    let from_journal = versions_taken(&mut journal);
    let from_chain = versions_taken(&mut chain);
    println!(rt; "{rows} rows: journal {from_journal}, chain {from_chain}")?;
    Ok(())
}

// Whether a store was made, as a text.
#[derive(Drop)]
struct Outcome(Result<(), Unmade>);

impl fmt::Display for Outcome {
    fn fmt<W: fmt::Write>(&self, f: &mut fmt::Formatter<W>) -> fmt::Result {
        match self.0 {
            Ok(()) => write!(f, "made"),
            Err(why) => write!(f, "{why}"),
        }
    }
}

fn outcome_of<S: Drop>(made: Result<S, Unmade>) -> Outcome {
    Outcome(made.map(|_| ()))
}

// Prints which numbers of items each make can have.
fn try_items(rt: &HostRuntime) -> anyhow::Result<()> {
    let none = outcome_of(Journal::<u64, 0>::new(rt.alloc(), 1));
    let one = outcome_of(Journal::<u64, 1>::new(rt.alloc(), 1));
    let most = outcome_of(Journal::<u64, 64>::new(rt.alloc(), 1));
    let more = outcome_of(Journal::<u64, 65>::new(rt.alloc(), 1));
    println!(rt; "journal of 0, 1, 64 and 65 items: {none}, {one}, {most}, {more}")?;
    let none = outcome_of(Chain::<u64, 0>::new(rt.alloc(), 1));
    let one = outcome_of(Chain::<u64, 1>::new(rt.alloc(), 1));
    let most = outcome_of(Chain::<u64, 64>::new(rt.alloc(), 1));
    let more = outcome_of(Chain::<u64, 65>::new(rt.alloc(), 1));
    println!(rt; "chain of 0, 1, 64 and 65 items: {none}, {one}, {most}, {more}")?;
    Ok(())
}

fn try_makes(rt: &HostRuntime) -> anyhow::Result<()> {
    let (mut journal, mut chain) = both_makes(rt, 2)?;
    try_lists(rt, "journal", &mut journal)?;
    try_lists(rt, "chain", &mut chain)?;
    let (first, second) = run_both(rt.alloc(), &mut journal, &mut chain, &INSTALLING)?;
    let first = first.len();
    let second = second.len();
    println!(rt; "both at once: {first} and {second} answers")?;
    Ok(())
}

fn main(rt: HostRuntime) -> anyhow::Result<()> {
    try_makes(&rt)?;
    try_rows(&rt, 0)?;
    try_rows(&rt, 1)?;
    try_rows(&rt, 4096)?;
    try_rows(&rt, 5000)?;
    try_items(&rt)
}
