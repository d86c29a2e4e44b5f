//! Where an entry goes on.

ghost use Rattle.std.specs.Prelude.{◌≡◌, map};
ghost use Rattle.ios_meaning.specs.Meaning.{continuation_of};

use ios_reader::MapLine;

/// Where the run goes on behind an entry of these lines: nowhere, at the next entry, or at the one of a
/// number.
pub(crate) fn continuation_of(lines: &[&MapLine]) -> Option<Option<u64>>
    ensures { result ≡ continuation_of (map (λ l. l.now) lines.now) }
{
    let mut rest = lines;
    while let [line, behind @ ..] = rest {
        if let MapLine::Continue(target) = line {
            return Some(*target);
        }
        rest = behind;
    }
    None
}
