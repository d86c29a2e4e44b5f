ghost use Rattle.std.specs.Prelude.{◌≡◌, IfOk, option_map};
ghost use Rattle.aspath_text.specs.Printing.{PrintsIos};
ghost use Rattle.aspath_text.specs.Written.{IsWritten, AddsBranch, behind_first_byte};

use crate::ios_text::push_items;
use path_patterns::{TokenBranch, TokenPattern, word_items};
use route_types::Memory;
use std::alloc::Global;

fn push_branch(alloc: Global, out: &mut Vec<u8>, branch: &TokenBranch) -> Result<(), Memory>
    ensures { IfOk result (λ _. AddsBranch out.old.items branch.now out.new.items) }
{
    match word_items(alloc, branch.items.as_slice())? {
        None => Ok(()),
        Some(items) => push_items(out, items.as_slice()),
    }
}

// The text of the branches, with a `|` before each of them.
fn barred(alloc: Global, branches: &[TokenBranch]) -> Result<Vec<u8>, Memory>
    ensures { IfOk result (λ text. IsWritten branches.now text.items) }
{
    let mut out = Vec::new(alloc);
    let mut rest = branches;
    while let [branch, tail @ ..] = rest {
        push_branch(alloc, &mut out, branch)?;
        rest = tail;
    }
    Ok(out)
}

fn behind_first_byte(alloc: Global, text: &[u8]) -> Result<Option<Vec<u8>>, Memory>
    ensures { IfOk result (λ behind. option_map (λ t. t.items) behind ≡ behind_first_byte text.now) }
{
    match text {
        [] => Ok(None),
        [_, behind @ ..] => Ok(Some(Vec::from_slice(alloc, behind)?)),
    }
}

/// The text of a pattern as an IOS AS-path pattern, which is found in the same paths. `None` comes exactly
/// where no path is matched. Its one error is want of memory.
pub fn print_ios(alloc: Global, pattern: &TokenPattern) -> Result<Option<Vec<u8>>, Memory>
    ensures { IfOk result (λ text. PrintsIos pattern.now (option_map (λ t. t.items) text)) }
{
    let text = barred(alloc, pattern.branches.as_slice())?;
    behind_first_byte(alloc, text.as_slice())
}
