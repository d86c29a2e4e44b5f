// Where pieces of output are put.
ghost use Rattle.std.specs.Prelude.{◌≡◌, ◌<◌, ◌++◌, length, map};
ghost use Rattle.policy_outside.specs.Sink.{SinkView, Puts, joined};

use crate::faults::PutFault;

/// A place that takes bytes: a stream, or a list in memory.
pub trait Sink {
    /// What the sink means: its bytes so far, where it tells them, and its counts of faults and of
    /// shortages of memory.
    ghost seen: { Self → SinkView };

    /// Appends the bytes of `piece`.
    ///
    /// `Failed` comes only where the count of faults rose in this call, `Memory` only where the count of
    /// shortages rose in this call. After either, a prefix of the piece has been appended.
    fn put(&mut self, piece: &[u8]) -> Result<(), PutFault>
        ensures { Puts (seen self.old) (seen self.new) piece.now result };
}

/// Puts the pieces one after the other, up to the first that is not taken whole. Takes no memory of its own.
///
/// The answer and what it says are those of one `put` of the joined pieces.
pub fn put_line<E: Sink>(sink: &mut E, pieces: &[&[u8]]) -> Result<(), PutFault>
    ensures { Puts (E.seen sink.old) (E.seen sink.new)
        (joined (map (λ piece. piece.now) pieces.now)) result }
{
    let mut rest = pieces;
    while let [piece, others @ ..] = rest {
        match sink.put(piece) {
            Ok(()) => rest = others,
            Err(fault) => return Err(fault),
        }
    }
    Ok(())
}

/// Puts a text by one `put` for each line, with the line's LF; what stands behind the last LF is put too.
/// Takes no memory of its own.
///
/// The answer and what it says are those of one `put` of the whole text.
#[tactic(auto, using(crate::proofs::PutLaws::leads_after))]
pub fn put_lines<O: Sink>(sink: &mut O, text: &[u8]) -> Result<(), PutFault>
    ensures { Puts (O.seen sink.old) (O.seen sink.new) text.now result }
{
    let mut rest = text;
    while !rest.is_empty() {
        let (line, others) = split_line(rest);
        match sink.put(line) {
            Ok(()) => rest = others,
            Err(fault) => return Err(fault),
        }
    }
    Ok(())
}

/// The first line of a text with its LF, or the whole text where it has none, and what stands behind it.
fn split_line(text: &[u8]) -> (&[u8], &[u8])
    requires { 0 < length text.now }
    ensures parts { result.0.now ++ result.1.now ≡ text.now }
    ensures shorter { length result.1.now < length text.now }
{
    match text.iter().position(|byte| *byte == b'\n') {
        Some(place) => text.split_at(place + 1),
        None => text.split_at(text.len()),
    }
}
