// A store whose rows stand in the order in which they were staged.
#![tactic(auto)]

ghost use Rattle.std.specs.Prelude.{◌≡◌, ℕ, ◌≤◌, min, true, length, None, vec_items as items, vec_len as rows_len, vec_capacity as rows_cap};
ghost use Rattle.protocol.specs.Limits.{row_limit};
ghost use Rattle.store.specs.Meaning.{with, rising, last_of};
ghost use Rattle.store.specs.Making.{Making, Blank};
ghost use Rattle.journal.specs.Counts.{rows_fit};
ghost use Rattle.journal.specs.Rows.{version_in, staged_in, versions_of, staged_of, sound, Found};

use std::alloc::Global;
use store::{Refusal, Store, Unmade, Version, check_item, is_later, row_count};

// A row in use.
#[derive(Clone, Copy)]
pub enum Row<P> {
    // A payload that waits to be installed.
    Staged { item: usize, payload: P },
    // A version, in the place where its payload was staged.
    Installed { item: usize, version: Version<P> },
}

// The staged row of an item: its place among the rows, and its payload.
#[derive(Clone, Copy)]
struct Held<P> {
    place: usize,
    payload: P,
}

// The store; `rows` has memory for all of the capacity from the start.
// Clauses name the rows' meaning by the functions that the store's ghost members are, and no `impl Model`, whose `Value` has no functions.
// Rows stand in the order of staging; `capacity` stands beside them, since their memory may hold more than was asked for.
#[derive(Drop)]
pub struct Journal<P, const N: usize> {
    rows: Vec<Row<P>>,
    capacity: usize,
    ghost wide: { (1 ≤ N) × (N ≤ 64) },
    ghost room: { (rows_len rows ≤ capacity) × (capacity ≤ rows_cap rows) },
    ghost ordered: { sound N (items rows) ≡ true },
    ghost rises: { (k : ℕ) → rising (versions_of (items rows) k) ≡ true },
}

// A function for each kind of row: what they give has two types, and a match is as short as a generic one's closure.
impl<P: Copy> Row<P> {
    // The version in the row, where it has one of the item.
    fn version_of(&self, item: usize) -> Option<Version<P>>
        ensures { result ≡ last_of (version_in self.now item) }
    {
        match *self {
            Row::Installed { item: of, version } if of == item => Some(version),
            _ => None,
        }
    }

    // The staged payload in the row, where it has one of the item.
    fn staged_of(&self, item: usize) -> Option<P>
        ensures { result ≡ staged_in self.now item }
    {
        match *self {
            Row::Staged { item: of, payload } if of == item => Some(payload),
            _ => None,
        }
    }
}

impl<P: Copy, const N: usize> Journal<P, N> {
    // A cleared store of at most 4,096 rows; rows given beyond that are left unused.
    pub fn new(heap: Global, rows: usize) -> Result<Self, Unmade>
        ensures { Making N (λ s. Blank (versions_of (items s.rows)) (staged_of (items s.rows)) × (s.capacity ≡ min rows row_limit)) result }
    {
        let capacity = row_count::<N>(rows)?;
        let rows = Vec::with_capacity(heap, capacity)?;
        Ok(Journal { rows, capacity })
    }

    // The item's newest version: its last installed row, from the end back.
    fn newest_of(&self, item: usize) -> Option<Version<P>>
        ensures { result ≡ last_of (versions_of (items self.now.rows) item) }
    {
        self.rows.iter().rev().find_map(|row| row.version_of(item))
    }

    // The item's staged row, from the end back.
    fn find_staged(&self, item: usize) -> Option<Held<P>>
        ensures { Found (items self.now.rows) item result }
    {
        self.rows.iter().enumerate().rev().find_map(|(place, row)| {
            row.staged_of(item).map(|payload| Held { place, payload })
        })
    }

    // Removes the item's staged row, if it has one.
    fn discard(&mut self, item: usize)
        ensures stagings { staged_of (items self.new.rows) ≡ with (staged_of (items self.old.rows)) item None }
        ensures versions { versions_of (items self.new.rows) ≡ versions_of (items self.old.rows) }
        ensures capacity { self.new.capacity ≡ self.old.capacity }
    {
        if let Some(held) = self.find_staged(item) {
            let _ = self.rows.remove(held.place);
        }
    }
}

impl<P: Copy, const N: usize> Store for Journal<P, N> {
    type Payload = P;

    const K: usize = N;

    ghost K = { N };

    ghost versions = { λ s. versions_of (items s.rows) };

    ghost stagings = { λ s. staged_of (items s.rows) };

    ghost capacity = { λ s. s.capacity };

    ghost wide = { λ s. s.wide };

    ghost fits = { λ s. rows_fit N (items s.rows) (rows_len s.rows) s.capacity s.ordered s.rows.ok.0 s.room.0 };

    ghost rises = { λ s. s.rises };

    fn newest(&self, item: usize) -> Result<Option<Version<P>>, Refusal> {
        check_item(item, N)?;
        Ok(self.newest_of(item))
    }

    fn staged(&self, item: usize) -> Result<Option<P>, Refusal> {
        check_item(item, N)?;
        Ok(self.find_staged(item).map(|held| held.payload))
    }

    fn stage(&mut self, item: usize, payload: P) -> Result<(), Refusal> {
        check_item(item, N)?;
        let row = Row::Staged { item, payload };
        match self.find_staged(item) {
            Some(held) => self.rows[held.place] = row,
            None if self.rows.len() < self.capacity => self.rows.push_reserved(row),
            None => return Err(Refusal::NoRow),
        }
        Ok(())
    }

    // As the chain's, and no body in the trait: `discard` is of each make alone.
    fn unstage(&mut self, item: usize) -> Result<(), Refusal> {
        check_item(item, N)?;
        self.discard(item);
        Ok(())
    }

    fn install(&mut self, item: usize, time: u64) -> Result<(), Refusal> {
        check_item(item, N)?;
        let held = self.find_staged(item).ok_or(Refusal::NotStaged)?;
        if !is_later(self.newest_of(item), time) {
            return Err(Refusal::NotLater);
        }
        self.rows[held.place] = Row::Installed {
            item,
            version: Version {
                time,
                payload: held.payload,
            },
        };
        Ok(())
    }

    fn clear(&mut self) {
        self.rows.clear();
    }
}
