// The line that names the kind of payload of the whole script.
ghost use Rattle.command.specs.Grammar.{kind_text};
ghost use Rattle.command.specs.Words.{Reads};

#[derive(Clone, Copy, PartialEq, Eq, Debug)]
pub enum Kind {
    Count,
    Pose,
}

// The kind that the line names, or none.
pub fn parse_kind(line: &[u8]) -> Option<Kind>
    ensures { Reads (λ _. Unit {0}) kind_text line.now result }
{
    let (letter, rest) = line.split_first()?;
    match (char::from(*letter), rest) {
        ('K', b" count") => Some(Kind::Count),
        ('K', b" pose") => Some(Kind::Pose),
        _ => None,
    }
}
