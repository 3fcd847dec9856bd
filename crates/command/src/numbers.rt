// Numbers in decimal, each with one text: no plus, and no zero before other digits.
ghost use Rattle.std.specs.Prelude.{◌≡◌, ℕ, ◌^◌, ◌<◌, List, [], Some, None, Ok, IfSome, IfNone, Result, IsAscii, decimal, ◌≢◌, FitsSigned};
ghost use Rattle.std.specs.Int.{w32};
ghost use Rattle.std.specs.Fmt.{signed_decimal};
ghost use Rattle.command.specs.Words.{Reads};
ghost use Rattle.command.specs.Decimals.{decimal_spaceless, signed_spaceless, signed_distinct};
ghost use Rattle.std.proofs.lemmas.Fmt.{decimal_injective};

use crate::words::Word;
use itoa::{Buffer, Integer};
use std::str::FromStr;

// The number that has the word as its text, or none.
fn number<N: Integer + FromStr>(word: &[u8]) -> Option<N>
where
    N::Err: Drop,
    ensures some { IfSome result (λ n. word.now ≡ N.text n) }
    ensures none { IfNone result ((n : N) → IsAscii (N.text n) → ((r : Result N N.Err) → N.from_str_gives (N.text n) r → r ≡ Ok n) → word.now ≢ N.text n) }
{
    let text = std::str::from_utf8(word).ok()?;
    let number = text.parse::<N>().ok()?;
    if Buffer::new().format(number) == text {
        Some(number)
    } else {
        None
    }
}

// A number below 2^64.
impl Word for u64 {
    ghost lawful = { λ n. n < 2 ^ 64 };

    ghost spelled = { decimal };

    ghost spaceless = { λ n h. decimal_spaceless n h };

    ghost distinct = { λ m n h k e. decimal_injective m n h k e };

    fn from_word(word: &[u8]) -> Option<u64> {
        number(word)
    }
}

// A number of 32 bits with a hyphen for minus.
impl Word for i32 {
    ghost lawful = { FitsSigned w32 };

    ghost spelled = { signed_decimal };

    ghost spaceless = { λ z h. signed_spaceless z h };

    ghost distinct = { λ y z h k e. signed_distinct y z h k e };

    fn from_word(word: &[u8]) -> Option<i32> {
        number(word)
    }
}
