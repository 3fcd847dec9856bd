// Words, each after a single space.
ghost use Rattle.std.specs.Prelude.{◌≡◌, ℕ, ◌<◌, ◌≤◌, List, [], ◌∷◌, length, Some, None, ◌≢◌, slice_index};
ghost use Rattle.command.specs.Words.{Spaceless, Reads, Front, Nofront, Spelled};

// A value that is written as one word.
pub trait Word: Copy {
    ghost lawful: { Self → Type 0 };

    ghost spelled: { Self → List ℕ };

    // The value that the word spells, or none.
    fn from_word(word: &[u8]) -> Option<Self>
        ensures { Reads lawful spelled word.now result };

    ghost spaceless: { (x : Self) → lawful x → Spaceless (spelled x) };

    ghost distinct: { (x y : Self) → lawful x → lawful y → spelled x ≡ spelled y → x ≡ y };
}

// The index of the first space, or the length.
fn word_end(text: &[u8]) -> usize
    ensures within { result ≤ length text.now }
    ensures before { (k : ℕ) → k < result → slice_index text.now k ≢ 32 }
    ensures found { result < length text.now → slice_index text.now result ≡ 32 }
{
    text.iter()
        .position(|byte| *byte == b' ')
        .unwrap_or(text.len())
}

// The word after a space at the front, and what follows it.
fn split_word(text: &[u8]) -> Option<(&[u8], &[u8])>
    ensures { elim result [ Some p ↦ Front Spaceless (λ w. w) text.now p.0.now p.1.now | None ↦ ((t : List ℕ) → text.now ≢ 32 ∷ t) ] }
{
    let rest = text.strip_prefix(b" ")?;
    Some(rest.split_at(word_end(rest)))
}

// The value of the word at the front, and what follows it.
pub fn next_word<T: Word>(text: &[u8]) -> Option<(T, &[u8])>
    ensures { elim result [ Some p ↦ Front T.lawful T.spelled text.now p.0 p.1.now | None ↦ Nofront T.lawful T.spelled text.now ] }
{
    let (word, rest) = split_word(text)?;
    Some((T::from_word(word)?, rest))
}

// The first N values, each after a single space, of a text that moves past them.
pub fn words<T: Word + Default, const N: usize>(text: &mut &[u8]) -> Option<[T; N]>
    ensures { elim result [ Some xs ↦ Spelled T.lawful T.spelled N text.old.now xs text.new.now | None ↦ ((xs : List T) (t : List ℕ) → Spelled T.lawful T.spelled N text.old.now xs t → ⊥) ] }
{
    let mut values = [T::default(); N];
    for value in values.iter_mut() {
        (*value, *text) = next_word(*text)?;
    }
    Some(values)
}

// Just N values, each after a single space.
pub fn only_words<T: Word + Default, const N: usize>(mut text: &[u8]) -> Option<[T; N]>
    ensures { elim result [ Some xs ↦ Spelled T.lawful T.spelled N text.now xs [] | None ↦ ((xs : List T) → Spelled T.lawful T.spelled N text.now xs [] → ⊥) ] }
{
    let values = words(&mut text)?;
    text.is_empty().then_some(values)
}
