// What becomes of the payloads that a cohort staged: over the items of a set, in rising order. Clauses name a store's versions, staged
// payloads and capacity one by one, as those of its trait do: a word for all three would hide which of them a call changes.
#![tactic(auto)]

ghost use Rattle.std.specs.Prelude.{◌≡◌, if◌then◌else◌, None};
ghost use Rattle.store.specs.Meaning.{with, grown};
ghost use Rattle.endings.specs.After.{installs, unstages, versions_to, staged_to, cleared_to};

use items::ItemSet;
use store::Store;

// Installs the item's staged payload where it is in the set.
// Beside `unstage_if`: one function over a closure would have its `pre` and `post` in each of the clauses.
fn install_if<S: Store>(store: &mut S, items: ItemSet, item: usize, time: u64)
    ensures versions { S.versions store.new ≡ (if installs S.K (S.versions store.old) (S.stagings store.old) items time item then with (S.versions store.old) item (grown (S.versions store.old item) time (S.stagings store.old item)) else S.versions store.old) }
    ensures stagings { S.stagings store.new ≡ (if installs S.K (S.versions store.old) (S.stagings store.old) items time item then with (S.stagings store.old) item None else S.stagings store.old) }
    ensures capacity { S.capacity store.new ≡ S.capacity store.old }
{
    if items.contains(item) {
        let _ = store.install(item, time);
    }
}

// Installs the staged payload of each item of the set at the time.
pub fn install_all<S: Store>(store: &mut S, items: ItemSet, time: u64)
    ensures versions { S.versions store.new ≡ versions_to S.K (S.versions store.old) (S.stagings store.old) items time S.K }
    ensures stagings { S.stagings store.new ≡ staged_to S.K (S.versions store.old) (S.stagings store.old) items time S.K }
    ensures capacity { S.capacity store.new ≡ S.capacity store.old }
{
    // An item is a number of the store, and there is no slice to go through.
    for item in 0..S::K {
        install_if(store, items, item, time);
    }
}

// Removes the item's staged payload where it is in the set.
fn unstage_if<S: Store>(store: &mut S, items: ItemSet, item: usize)
    ensures versions { S.versions store.new ≡ S.versions store.old }
    ensures stagings { S.stagings store.new ≡ (if unstages S.K (S.stagings store.old) items item then with (S.stagings store.old) item None else S.stagings store.old) }
    ensures capacity { S.capacity store.new ≡ S.capacity store.old }
{
    if items.contains(item) {
        let _ = store.unstage(item);
    }
}

// Removes the staged payload of each item of the set.
pub fn unstage_all<S: Store>(store: &mut S, items: ItemSet)
    ensures versions { S.versions store.new ≡ S.versions store.old }
    ensures stagings { S.stagings store.new ≡ cleared_to S.K (S.stagings store.old) items S.K }
    ensures capacity { S.capacity store.new ≡ S.capacity store.old }
{
    // As in `install_all`.
    for item in 0..S::K {
        unstage_if(store, items, item);
    }
}
