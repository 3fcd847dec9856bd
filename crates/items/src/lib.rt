// A set of items, each from 0 to 63, in one word.
#![tactic(auto)]

ghost use Rattle.std.specs.Prelude.{◌≡◌, ℕ, ◌<◌, true};
ghost use Rattle.items.specs.Sets.{has, none, inserted, meeting};

#[derive(Clone, Copy, Debug, Default, PartialEq, Eq)]
pub struct ItemSet {
    bits: u64,
}

impl ItemSet {
    #[tactic(auto, unfolding(crate::specs::Sets::none))]
    pub fn new() -> Self
        ensures { result ≡ none }
    {
        ItemSet { bits: 0 }
    }

    #[tactic(auto, using(crate::proofs::Members::has_high), unfolding(crate::specs::Sets::has))]
    pub fn contains(self, item: usize) -> bool
        ensures { result ≡ has self item }
    {
        if item >= 64 {
            return false;
        }
        (self.bits >> item) % 2 == 1
    }

    // Adds an item below 64; any other is left out.
    #[tactic(auto, using(crate::proofs::Members::bits_inserted, crate::proofs::Members::left_out))]
    pub fn insert(&mut self, item: usize)
        ensures { self.new ≡ inserted self.old item }
    {
        if item < 64 {
            self.bits |= 1 << item;
        }
    }

    // Whether an item is in both.
    #[tactic(auto, using(crate::proofs::Members::meeting_at, crate::proofs::Members::meeting_some), unfolding(crate::specs::Sets::meeting))]
    pub fn meets(self, other: ItemSet) -> bool
        ensures value { result ≡ meeting self other }
        ensures shared { result ≡ true → (i : ℕ) × ((has self i ≡ true) × (has other i ≡ true)) }
        ensures apart { (i : ℕ) → has self i ≡ true → has other i ≡ true → result ≡ true }
    {
        self.bits & other.bits != 0
    }
}
