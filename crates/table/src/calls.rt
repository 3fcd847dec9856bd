ghost use Rattle.std.specs.Prelude.{◌≡◌, ◌≤◌, ℕ, [], length, if◌then◌else◌, nat_lt, Ok, Err};
ghost use Rattle.std.specs.List.{remove};
ghost use Rattle.table.specs.Contents.{listed, find_in, has, pushed, without, nth_in, reply_in, stepped};

use crate::Table;

impl<T: Copy + Default, const N: usize> Table<T, N> {
    // An empty table of records that have a default.
    pub fn new() -> Self
        ensures { listed result ≡ [] }
    {
        Table::filled(T::default())
    }
}

impl<T: Copy, const N: usize> Table<T, N> {
    // An empty table; `fill` takes the places that stand for nothing.
    pub fn filled(fill: T) -> Self
        ensures { listed result ≡ [] }
    {
        Table {
            items: [fill; N],
            len: 0,
        }
    }

    pub fn len(&self) -> usize
        ensures value { result ≡ length (listed self.now) }
        ensures fits { result ≤ N }
    {
        self.len
    }

    pub fn as_slice(&self) -> &[T]
        ensures { result.now ≡ listed self.now }
    {
        &self.items[..self.len]
    }

    pub fn nth(&self, place: usize) -> Option<T>
        ensures { result ≡ nth_in (listed self.now) place }
    {
        self.as_slice().get(place).copied()
    }

    // Adds a record at the end, or hands it back where there is no room.
    pub fn push(&mut self, item: T) -> Result<(), T>
        ensures value { result ≡ (if nat_lt (length (listed self.old)) N then Ok tt else Err item) }
        ensures after { listed self.new ≡ pushed N (listed self.old) item }
    {
        if self.len >= N {
            return Err(item);
        }
        self.items[self.len] = item;
        self.len += 1;
        Ok(())
    }

    // Takes the record at the place out, if there is one; later ones move down by one.
    pub fn remove(&mut self, place: usize)
        ensures { listed self.new ≡ remove (listed self.old) place }
    {
        if place < self.len {
            self.items.copy_within(place + 1..self.len, place);
            self.len -= 1;
        }
    }
}

// What a table finds its records by.
pub trait Numbered: Sized {
    ghost number: { Self → ℕ };

    fn number(&self) -> u64
        ensures { result ≡ number self.now };
}

impl<T: Numbered + Copy, const N: usize> Table<T, N> {
    ghost use Rattle.std.specs.Prelude.{position};

    // The place of the first record with the number.
    fn place(&self, number: u64) -> Option<usize>
        ensures { result ≡ position (has T.Numbered.number number) (listed self.now) }
    {
        self.as_slice()
            .iter()
            .position(|record| record.number() == number)
    }

    #[tactic(auto, using(crate::proofs::Places::found_nth, crate::proofs::Places::found_none))]
    pub fn find(&self, number: u64) -> Option<T>
        ensures { result ≡ find_in T.Numbered.number (listed self.now) number }
    {
        let place = self.place(number)?;
        self.nth(place)
    }

    // Takes the first record with the number out.
    #[tactic(auto, using(crate::proofs::Places::without_at, crate::proofs::Places::without_none))]
    pub fn forget(&mut self, number: u64)
        ensures { listed self.new ≡ without T.Numbered.number (listed self.old) number }
    {
        if let Some(place) = self.place(number) {
            self.remove(place);
        }
    }
}

// A numbered record that changes in place by an event, and replies.
pub trait Machine: Numbered {
    type Event: Copy;

    type Reply: Copy;

    ghost reply: { Self → Self.Event → Self.Reply };

    ghost next: { Self → Self.Event → Self };

    fn step(&mut self, event: Self::Event) -> Self::Reply
        ensures value { result ≡ reply self.old event }
        ensures after { self.new ≡ next self.old event };
}

impl<T: Machine + Copy, const N: usize> Table<T, N> {
    // Gives the event to the first record with the number, which changes where it stands.
    #[tactic(auto, using(crate::proofs::Places::found_at, crate::proofs::Places::found_none, crate::proofs::Places::stepped_at, crate::proofs::Places::stepped_none))]
    pub fn step(&mut self, number: u64, event: T::Event) -> Option<T::Reply>
        ensures value { result ≡ reply_in T.Machine.reply (find_in T.Numbered.number (listed self.old) number) event }
        ensures after { listed self.new ≡ stepped T.Numbered.number T.Machine.next (listed self.old) number event }
    {
        let place = self.place(number)?;
        Some(self.items[place].step(event))
    }
}
