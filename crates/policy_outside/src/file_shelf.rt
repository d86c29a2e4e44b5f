// A shelf over the files of the system.
ghost use Rattle.std.specs.Prelude.{◌≡◌, ◌≤◌, ◌<◌, [], length, None, IfOk, IfSome, IsErrOf};

use crate::faults::FetchFault;
use crate::shelf::Shelf;
use std::alloc::Global;
use std::fs;
use std::io::Read;
use std::marker::Model;
use std::rt::Files;

/// The number of bytes that one read asks for at most.
const CHUNK: usize = 8192;

/// A shelf whose names are paths of files. It tells no texts; to a contract it is its count of faults and
/// the name of the last one.
#[derive(Drop)]
pub struct FileShelf<'a, R: Files> {
    files: &'a R,
    faults: u64,
    last_fault: Vec<u8>,
}

impl<'a, R: Files> Model for FileShelf<'a, R> {
    ghost use Rattle.std.specs.Prelude.{None};
    ghost use Rattle.policy_outside.specs.Shelf.{ShelfView};

    ghost Value = { ShelfView };

    ghost view = { λ s. record { texts = None; faults = s.faults; last_fault = s.last_fault.items } };
}

impl<'a, R: Files> FileShelf<'a, R> {
    /// A shelf over the files that `files` reaches, with no faults yet. Takes no memory.
    pub fn new(files: &'a R, alloc: Global) -> FileShelf<'a, R>
        ensures { result ≡ record { texts = None; faults = 0; last_fault = [] } }
    {
        FileShelf {
            files,
            faults: 0,
            last_fault: Vec::new(alloc),
        }
    }
}

impl<R: Files> Shelf for FileShelf<'_, R> {
    ghost seen = { λ s. s };

    /// The bytes of the file `name`, of which at most `most + 1` are read. A file that is missing or may
    /// not be read is a fault, and so is a folder.
    fn fetch(&mut self, alloc: Global, name: &str, most: u64) -> Result<Vec<u8>, FetchFault> {
        let asked = Vec::from_slice(alloc, name.as_bytes())?;
        let answer = read_named(self.files, alloc, name, most);
        if let Err(FetchFault::Failed) = answer {
            self.faults = self.faults.saturating_add(1);
            self.last_fault = asked;
        }
        answer
    }
}

/// The bytes of the file `name`; the errors are those of `read_text`, and `Failed` where it cannot be opened.
fn read_named<R: Files>(
    files: &R,
    alloc: Global,
    name: &str,
    most: u64,
) -> Result<Vec<u8>, FetchFault>
    ensures { IfOk result (λ text. length text.items ≤ most) }
{
    let Ok(mut file) = fs::open(files, name) else {
        return Err(FetchFault::Failed);
    };
    read_text(alloc, &mut file, most)
}

/// What `reader` has left, of which at most `most + 1` bytes are taken.
///
/// `Failed` where a read fails, `TooLong` where more than `most` bytes are left, `Memory` for want of memory.
fn read_text<F: Read>(alloc: Global, reader: &mut F, most: u64) -> Result<Vec<u8>, FetchFault>
    ensures within { IfOk result (λ text. length text.items ≤ most) }
    ensures whole { IfOk result
        (λ text. IfSome (F.remaining reader.old) (λ bytes. text.items ≡ bytes)) }
    ensures long { IsErrOf result FetchFault.TooLong
        → IfSome (F.remaining reader.old) (λ bytes. most < length bytes) }
{
    let mut text = Vec::new(alloc);
    let mut chunk = [0u8; CHUNK];
    while text.len() as u64 <= most {
        let room = (most - text.len() as u64).min(CHUNK as u64 - 1) as usize + 1;
        let Ok(taken) = reader.read(&mut chunk[..room]) else {
            return Err(FetchFault::Failed);
        };
        if taken == 0 {
            return Ok(text);
        }
        text.extend_from_slice(&chunk[..taken])?;
    }
    Err(FetchFault::TooLong)
}
