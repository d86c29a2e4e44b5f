// Where a byte of a text stands.
ghost use Rattle.std.specs.Prelude.{◌≡◌, ◌+◌, ◌==◌, count_by};
ghost use Rattle.policy_program.specs.Lines.{place_in, column_behind};

/// A place in a text, as an editor counts it.
#[derive(Clone, Copy, Debug, PartialEq, Eq)]
pub struct Place {
    /// 1 plus the LFs before the place.
    pub line: u64,
    /// 1 plus the bytes since the last LF before the place.
    pub column: u64,
}

/// The place of the byte at `start`, counted from 0; behind the text's end it is the place of the end.
#[tactic(auto, using(std::proofs::lemmas::List::take_min))]
pub fn place_of(text: &[u8], start: u64) -> Place
    ensures { result ≡ place_in text.now start }
{
    let end = start.min(text.len() as u64) as usize;
    place_behind(&text[..end])
}

/// The place right behind these bytes.
#[tactic(auto, unfolding(crate::specs::Lines::column_behind))]
fn place_behind(text: &[u8]) -> Place
    ensures line { result.line ≡ 1 + count_by (λ b. b == 10) text.now }
    ensures column { result.column ≡ column_behind 1 text.now }
{
    let mut line = 1;
    let mut column = 1;
    let mut rest = text;
    while let [byte, tail @ ..] = rest {
        if *byte == b'\n' {
            line += 1;
            column = 1;
        } else {
            column += 1;
        }
        rest = tail;
    }
    Place { line, column }
}
