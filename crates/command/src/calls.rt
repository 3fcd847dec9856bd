// The lines that are calls of the line.
ghost use Rattle.std.specs.Prelude.{◌∷◌};
ghost use Rattle.command.specs.Grammar.{call_text, LawfulCall, FitsLine, OneText, Alone};
ghost use Rattle.command.specs.Words.{Reads};

use crate::payloads::PayloadText;
use crate::words::{only_words, words};
use protocol::Call;

// A line has at most so many bytes before its newline.
pub const LONGEST_LINE: usize = 80;

// The write with these numbers and this payload, or none.
#[tactic(auto, using(crate::proofs::Letters::read_at))]
fn write_with<P: PayloadText>(mut rest: &[u8]) -> Option<Call<P>>
    ensures { Reads (LawfulCall P.lawful) (call_text P.written) (87 ∷ rest.now) result }
{
    let [tx, cell, item] = words::<u64, 3>(&mut rest)?;
    let payload = P::from_text(rest)?;
    Some(Call::Write(tx, cell as usize, item as usize, payload))
}

// The call with this letter and, after it, these numbers and this payload; or none.
#[tactic(auto, using(crate::proofs::Letters::none_at, crate::proofs::Letters::read_at))]
fn call_with<P: PayloadText>(letter: char, rest: &[u8]) -> Option<Call<P>>
    ensures { Reads (LawfulCall P.lawful) (call_text P.written) (letter ∷ rest.now) result }
{
    match letter {
        'O' => {
            let [] = only_words::<u64, 0>(rest)?;
            Some(Call::Open)
        }
        'J' => {
            let [tx, cell] = only_words::<u64, 2>(rest)?;
            Some(Call::Join(tx, cell as usize))
        }
        'R' => {
            let [tx, cell, item] = only_words::<u64, 3>(rest)?;
            Some(Call::Read(tx, cell as usize, item as usize))
        }
        'W' => write_with(rest),
        'L' => {
            let [tx, cell] = only_words::<u64, 2>(rest)?;
            Some(Call::Leave(tx, cell as usize))
        }
        'S' => {
            let [tx] = only_words::<u64, 1>(rest)?;
            Some(Call::Submit(tx))
        }
        'G' => {
            let [tx] = only_words::<u64, 1>(rest)?;
            Some(Call::GiveUp(tx))
        }
        'A' => {
            let [tx] = only_words::<u64, 1>(rest)?;
            Some(Call::Resend(tx))
        }
        'D' => {
            let [place] = only_words::<u64, 1>(rest)?;
            Some(Call::Deliver(place as usize))
        }
        'X' => {
            let [place] = only_words::<u64, 1>(rest)?;
            Some(Call::Lose(place as usize))
        }
        'C' => {
            let [cell, time] = only_words::<u64, 2>(rest)?;
            Some(Call::Clock(cell as usize, time))
        }
        'F' => {
            let [tx] = only_words::<u64, 1>(rest)?;
            Some(Call::Fate(tx))
        }
        _ => None,
    }
}

// The call that the line is, or none.
pub fn parse_call<P: PayloadText>(line: &[u8]) -> Option<Call<P>>
    ensures value { Reads (FitsLine P.lawful P.written) (call_text P.written) line.now result }
    ensures only { Alone P.lawful P.written line.now result }
{
    if line.len() > LONGEST_LINE {
        return None;
    }
    let (letter, rest) = line.split_first()?;
    call_with(char::from(*letter), rest)
}

// Two calls have two texts, of any length, so that no text stands for more than one.
pub fn texts_differ<P: PayloadText>()
    ensures { OneText P.lawful P.written }
{}
