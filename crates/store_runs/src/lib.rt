// Lists of store calls: whatever list is made, a store answers as its plain meaning does, and so two makes of store answer alike.
#![tactic(auto)]

ghost use Rattle.std.specs.Prelude.{◌≡◌, ℕ, ◌+◌, ◌<◌, ◌≤◌, true, cond, List, [], length, is_ok, is_err, IfOk, if◌then◌else◌, vec_items as items, vec_len as filled, vec_capacity as room};
ghost use Rattle.store_runs.specs.Ledger.{free_rows, rows_taken, rows_given};
ghost use Rattle.store_runs.specs.Observer.{KnownFrom};
ghost use Rattle.store_runs.specs.Plain.{meant, cleared, answer_to, after_call, answers_to, after_all};

// Clauses say `meant`, since a store is any type of the trait, and an `impl Model` is for one.
use std::alloc::{AllocError, Global};
use store::{Refusal, Store, Version};

// A call of a store.
#[derive(Clone, Copy, PartialEq, Eq, Debug)]
pub enum StoreCall<P> {
    Newest { item: usize },
    Staged { item: usize },
    Stage { item: usize, payload: P },
    Unstage { item: usize },
    Install { item: usize, time: u64 },
    Clear,
}

// What a store replies to a call that it accepts.
#[derive(Clone, Copy, PartialEq, Eq, Debug)]
pub enum StoreReply<P> {
    // The item's newest version, or none.
    Version(Option<Version<P>>),
    // The item's staged payload, or none.
    Payload(Option<P>),
    // A change was made.
    Done,
}

// What a store answers to a call; a refusal changes nothing.
pub type StoreAnswer<P> = Result<StoreReply<P>, Refusal>;

// Makes one call. A refusal changes nothing, and a row is taken or given back as the call says.
pub fn make_call<S: Store>(store: &mut S, call: StoreCall<S::Payload>) -> StoreAnswer<S::Payload>
    ensures answer { result ≡ answer_to (meant S.Store store.old) call }
    ensures after { meant S.Store store.new
        ≡ after_call (meant S.Store store.old) call }
    ensures refusal { is_err result ≡ true → meant S.Store store.new
        ≡ meant S.Store store.old }
    ensures rows { free_rows (meant S.Store store.new)
        + rows_taken (meant S.Store store.old) call
        ≡ free_rows (meant S.Store store.old)
        + rows_given (meant S.Store store.old) call }
{
    match call {
        StoreCall::Newest { item } => store.newest(item).map(StoreReply::Version),
        StoreCall::Staged { item } => store.staged(item).map(StoreReply::Payload),
        StoreCall::Stage { item, payload } => store.stage(item, payload).map(|()| StoreReply::Done),
        StoreCall::Unstage { item } => store.unstage(item).map(|()| StoreReply::Done),
        StoreCall::Install { item, time } => store.install(item, time).map(|()| StoreReply::Done),
        StoreCall::Clear => {
            store.clear();
            Ok(StoreReply::Done)
        }
    }
}

// Makes the calls in order, and adds the answers.
fn answer_all<S: Store>(
    store: &mut S,
    calls: &[StoreCall<S::Payload>],
    answers: &mut Vec<StoreAnswer<S::Payload>>,
)
    requires answers_value { items answers.old ≡ [] }
    requires calls_len_bound { length calls.now ≤ room answers.old }
    ensures answers { items answers.new ≡ answers_to (meant S.Store store.old) calls.now }
    ensures after { meant S.Store store.new
        ≡ after_all (meant S.Store store.old) calls.now }
{
    for call in calls {
        answers.push_reserved(make_call(store, *call));
    }
}

// Clears the store, makes the calls in order, and adds the answers.
fn answer_cleared<S: Store>(
    store: &mut S,
    calls: &[StoreCall<S::Payload>],
    answers: &mut Vec<StoreAnswer<S::Payload>>,
)
    requires answers_value { items answers.old ≡ [] }
    requires calls_len_bound { length calls.now ≤ room answers.old }
    ensures answers { items answers.new ≡ answers_to (cleared (meant S.Store store.old)) calls.now }
    ensures after { meant S.Store store.new
        ≡ after_all (cleared (meant S.Store store.old)) calls.now }
{
    store.clear();
    answer_all(store, calls, answers);
}

// Makes the calls in order, and gives the answers. Memory for them is taken first: without it no call is made.
pub fn run<S: Store>(
    heap: Global,
    store: &mut S,
    calls: &[StoreCall<S::Payload>],
) -> Result<Vec<StoreAnswer<S::Payload>>, AllocError>
    ensures answers { IfOk result (λ v. items v ≡ answers_to (meant S.Store store.old) calls.now) }
    ensures after { meant S.Store store.new
        ≡ cond (is_ok result) (after_all (meant S.Store store.old) calls.now)
        (meant S.Store store.old) }
{
    let mut answers = Vec::with_capacity(heap, calls.len())?;
    answer_all(store, calls, &mut answers);
    Ok(answers)
}

// Beside `run`, and no flag for it: what an observer knows after it holds of a cleared store alone.
// Clears the store, makes the calls in order, and gives the answers. From calls and answers alone an observer then knows what each item has
// staged, and its newest version.
pub fn run_cleared<S: Store>(
    heap: Global,
    store: &mut S,
    calls: &[StoreCall<S::Payload>],
) -> Result<Vec<StoreAnswer<S::Payload>>, AllocError>
    ensures answers { IfOk result (λ v. items v ≡ answers_to (cleared (meant S.Store store.old)) calls.now) }
    ensures after { meant S.Store store.new
        ≡ (if is_ok result then after_all (cleared (meant S.Store store.old)) calls.now else meant S.Store store.old) }
    ensures known { IfOk result (λ v. KnownFrom calls.now (items v) (meant S.Store store.new)) }
{
    let mut told = Vec::with_capacity(heap, calls.len())?;
    answer_cleared(store, calls, &mut told);
    Ok(told)
}

// Clears two stores and makes the same calls on each. With equal numbers of items and of rows they answer alike, whatever their makes.
pub fn run_both<S: Store, T: Store<Payload = S::Payload>>(
    heap: Global,
    first: &mut S,
    second: &mut T,
    calls: &[StoreCall<S::Payload>],
) -> Result<(Vec<StoreAnswer<S::Payload>>, Vec<StoreAnswer<S::Payload>>), AllocError>
    ensures alike { IfOk result (λ v. S.K ≡ T.K → S.capacity first.old ≡ T.capacity second.old → items v.0 ≡ items v.1) }
    ensures answers { IfOk result (λ v. (items v.0 ≡ answers_to (cleared (meant S.Store first.old)) calls.now)
        × (items v.1 ≡ answers_to (cleared (meant T.Store second.old)) calls.now)) }
    ensures first { meant S.Store first.new
        ≡ (if is_ok result then after_all (cleared (meant S.Store first.old)) calls.now else meant S.Store first.old) }
    ensures second { meant T.Store second.new
        ≡ (if is_ok result then after_all (cleared (meant T.Store second.old)) calls.now else meant T.Store second.old) }
{
    let mut from_first = Vec::with_capacity(heap, calls.len())?;
    let mut from_second = Vec::with_capacity(heap, calls.len())?;
    answer_cleared(first, calls, &mut from_first);
    answer_cleared(second, calls, &mut from_second);
    Ok((from_first, from_second))
}
