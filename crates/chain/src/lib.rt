// A store whose versions are linked, each to the one before it, and whose unused rows are linked to each other.
#![tactic(auto)]

ghost use Rattle.std.specs.Prelude.{◌≡◌, ℕ, ◌+◌, ◌<◌, ◌≤◌, min, true, [], length, None, vec_items as items, vec_len as rows_len, vec_capacity as rows_cap};
ghost use Rattle.std.proofs.Common.{rules};
ghost use Rattle.protocol.specs.Limits.{row_limit};
ghost use Rattle.store.specs.Meaning.{with, used, rising};
ghost use Rattle.store.specs.Making.{Making, Blank};
ghost use Rattle.chain.specs.Rows.{versions_of, staged_of, linked, is_free, is_installed, is_kept, slot_at, next_free, version_of, payload_of, free_rows, row_before};

use std::alloc::Global;
use store::{Refusal, Store, Unmade, Version, check_item, is_later, row_count};

// A row of memory; links are places among the rows.
// The links stand in the rows, and no version is a Box: all memory is taken at making, and a freed row is linked again at once.
#[derive(Clone, Copy)]
pub enum Row<P> {
    // Unused, and linked to the next unused row.
    Free {
        next: Option<usize>,
    },
    // A payload that waits to be installed.
    Staged {
        item: usize,
        payload: P,
    },
    // A version, linked to the item's version before it.
    Installed {
        item: usize,
        version: Version<P>,
        before: Option<usize>,
    },
}

// Where an item stands in the rows: its newest version, how many it has, and its staged payload. `count` is for proofs, which follow an
// item's links so many steps; a ghost field would be a fact of the whole store, proved anew at each change of another item.
#[derive(Clone, Copy)]
pub struct Slot {
    pub newest: Option<usize>,
    pub count: usize,
    pub staged: Option<usize>,
}

// The store; `free` is the first unused row, of `left`.
// As for the journal, no `impl Model`. `left` stands beside `free`, since a proof reads the links as so many rows; the slots are as many as the type has items.
#[derive(Drop)]
pub struct Chain<P, const N: usize> {
    rows: Vec<Row<P>>,
    free: Option<usize>,
    left: usize,
    slots: [Slot; N],
    ghost small: { (1 ≤ N) × (N ≤ 64) },
    ghost room: { (rows_len rows ≤ rows_cap rows) × (rows_len rows ≤ 4096) },
    ghost wide: { length slots ≡ N },
    ghost frees: { linked is_free (items rows) left free ≡ true },
    ghost links: { (k : ℕ) → linked (is_installed k) (items rows) (slot_at slots k).count (slot_at slots k).newest ≡ true },
    ghost stages: { (k : ℕ) → is_kept (items rows) k (slot_at slots k).staged ≡ true },
    ghost full: { used (versions_of (items rows) slots) (staged_of (items rows) slots) N + left ≡ length (items rows) },
    ghost rises: { (k : ℕ) → rising (versions_of (items rows) slots k) ≡ true },
}

// A function for each kind of row: what they give has three types, and a match is as short as a generic one's closure.
impl<P: Copy> Row<P> {
    // The unused row that an unused one links to.
    fn next_free(&self) -> Option<usize>
        ensures { result ≡ next_free self.now }
    {
        match *self {
            Row::Free { next } => next,
            _ => None,
        }
    }

    // The version in a row, if it has one.
    fn version(&self) -> Option<Version<P>>
        ensures { result ≡ version_of self.now }
    {
        match *self {
            Row::Installed { version, .. } => Some(version),
            _ => None,
        }
    }

    // The staged payload in a row, if it has one.
    fn payload(&self) -> Option<P>
        ensures { result ≡ payload_of self.now }
    {
        match *self {
            Row::Staged { payload, .. } => Some(payload),
            _ => None,
        }
    }
}

// The row before a place.
fn row_before(place: usize) -> Option<usize>
    ensures { result ≡ row_before place }
{
    place.checked_sub(1)
}

// Fills the rows with unused ones, each linked to the one before it.
// A loop, since `extend` can ask for memory, and `clear` may not fail.
fn fill<P: Copy>(rows: &mut Vec<Row<P>>, capacity: usize)
    requires rows_value { items rows.old ≡ [] }
    requires capacity_bound { capacity ≤ rows_cap rows.old }
    ensures value { items rows.new ≡ free_rows capacity }
    ensures len { rows_len rows.new ≡ capacity }
    ensures room { rows_cap rows.new ≡ rows_cap rows.old }
{
    for place in 0..capacity {
        rows.push_reserved(Row::Free {
            next: row_before(place),
        });
    }
}

impl Slot {
    // The slot of an item that has nothing; a constant, whose value proofs see, and no derived `Default`, which they do not.
    const BLANK: Slot = Slot {
        newest: None,
        count: 0,
        staged: None,
    };
}

impl<P: Copy, const N: usize> Chain<P, N> {
    // A cleared store of at most 4,096 rows; rows given beyond that are left unused.
    pub fn new(heap: Global, rows: usize) -> Result<Self, Unmade>
        ensures { Making N (λ s. Blank (versions_of (items s.rows) s.slots) (staged_of (items s.rows) s.slots) × (rows_len s.rows ≡ min rows row_limit)) result }
    {
        let capacity = row_count::<N>(rows)?;
        let mut rows = Vec::with_capacity(heap, capacity)?;
        fill(&mut rows, capacity);
        Ok(Chain {
            rows,
            free: row_before(capacity),
            left: capacity,
            slots: [Slot::BLANK; N],
        })
    }

    // Links the item's staged row, if it has one, in front of the unused ones.
    fn discard(&mut self, item: usize)
        requires { item < N }
        ensures stagings { staged_of (items self.new.rows) self.new.slots ≡ with (staged_of (items self.old.rows) self.old.slots) item None }
        ensures versions { versions_of (items self.new.rows) self.new.slots ≡ versions_of (items self.old.rows) self.old.slots }
        ensures capacity { rows_len self.new.rows ≡ rows_len self.old.rows }
    {
        let slot = self.slots[item];
        if let Some(place) = slot.staged {
            self.rows[place] = Row::Free { next: self.free };
            self.free = Some(place);
            self.left += 1;
            self.slots[item] = Slot {
                staged: None,
                ..slot
            };
        }
    }
}

impl<P: Copy, const N: usize> Store for Chain<P, N> {
    type Payload = P;

    const K: usize = N;

    ghost K = { N };

    ghost versions = { λ s. versions_of (items s.rows) s.slots };

    ghost stagings = { λ s. staged_of (items s.rows) s.slots };

    ghost capacity = { λ s. rows_len s.rows };

    ghost wide = { λ s. s.small };

    ghost fits = { λ s. let f = s.full in let o = s.rows.ok.0 in Prim.search rules };

    ghost rises = { λ s. s.rises };

    fn newest(&self, item: usize) -> Result<Option<Version<P>>, Refusal> {
        check_item(item, N)?;
        // No `and_then`, which was tried: its closure would need clauses of its own for the index.
        match self.slots[item].newest {
            Some(place) => Ok(self.rows[place].version()),
            None => Ok(None),
        }
    }

    fn staged(&self, item: usize) -> Result<Option<P>, Refusal> {
        check_item(item, N)?;
        // As in `newest`.
        match self.slots[item].staged {
            Some(place) => Ok(self.rows[place].payload()),
            None => Ok(None),
        }
    }

    fn stage(&mut self, item: usize, payload: P) -> Result<(), Refusal> {
        check_item(item, N)?;
        let slot = self.slots[item];
        if let Some(place) = slot.staged {
            self.rows[place] = Row::Staged { item, payload };
            return Ok(());
        }
        let place = self.free.ok_or(Refusal::NoRow)?;
        let next = self.rows[place].next_free();
        self.rows[place] = Row::Staged { item, payload };
        self.free = next;
        self.left -= 1;
        self.slots[item] = Slot {
            staged: Some(place),
            ..slot
        };
        Ok(())
    }

    fn unstage(&mut self, item: usize) -> Result<(), Refusal> {
        check_item(item, N)?;
        self.discard(item);
        Ok(())
    }

    fn install(&mut self, item: usize, time: u64) -> Result<(), Refusal> {
        let newest = self.newest(item)?;
        let slot = self.slots[item];
        let place = slot.staged.ok_or(Refusal::NotStaged)?;
        if !is_later(newest, time) {
            return Err(Refusal::NotLater);
        }
        // A row that a slot names as staged has a payload.
        let payload = self.rows[place].payload().unwrap();
        self.rows[place] = Row::Installed {
            item,
            version: Version { time, payload },
            before: slot.newest,
        };
        self.slots[item] = Slot {
            newest: Some(place),
            count: slot.count + 1,
            staged: None,
        };
        Ok(())
    }

    fn clear(&mut self) {
        let capacity = self.rows.len();
        self.rows.clear();
        fill(&mut self.rows, capacity);
        self.free = row_before(capacity);
        self.left = capacity;
        // A repeat that is written straight into a field is not covered by the borrow checker.
        let slots = [Slot::BLANK; N];
        self.slots = slots;
    }
}
