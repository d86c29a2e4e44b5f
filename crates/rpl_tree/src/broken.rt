// Where the statements of a text are broken.
ghost use Rattle.std.specs.Prelude.{◌≡◌, [], ◌∷◌, IfOk, List, Some, None, true};
ghost use Rattle.text_words.specs.declared.statement.Statement.{Statement};
ghost use Rattle.rpl_tree.specs.Blocks.{past, ends_block};
ghost use Rattle.rpl_tree.specs.Broken.{have_end, misplaced, fault_of_end, fault_of_line, fault_at, broken_from, broken};
ghost use Rattle.rpl_tree.specs.Placed.{Takes};

use crate::standing::{Standing, ends_block, keyword, opens, take_keyword};
use std::alloc::Global;
use text_words::{BlockKind, BrokenKind, Memory, Stack, Statement, TextFault};

// Whether one of these statements ends a block of this kind.
fn have_end(kind: BlockKind, statements: &[Statement]) -> bool
    ensures { result ≡ have_end kind statements.now }
{
    let mut rest = statements;
    while let [first, tail @ ..] = rest {
        if ends_block(kind, first.words.as_slice()) {
            return true;
        }
        rest = tail;
    }
    false
}

fn misplaced(statement: &Statement) -> Option<TextFault>
    ensures { result ≡ misplaced statement.now }
{
    let span = statement.span;
    Some(TextFault::Broken {
        span,
        kind: BrokenKind::Misplaced,
    })
}

fn fault_of_line(
    opened: Option<BlockKind>,
    statement: &Statement,
    behind: &[Statement],
) -> Option<TextFault>
    ensures { result ≡ fault_of_line opened statement.now behind.now }
{
    let kind = opened?;
    if have_end(kind, behind) {
        return None;
    }
    let line = statement.span;
    Some(TextFault::Broken {
        span: line,
        kind: BrokenKind::Unended,
    })
}

impl Standing {
    // Takes a statement outside blocks; gives its fault, if it has one.
    #[tactic(auto, unfolding(crate::specs::Blocks::past, crate::specs::Broken::fault_at))]
    fn take_line(
        &mut self,
        alloc: Global,
        statement: &Statement,
        behind: &[Statement],
    ) -> Option<TextFault>
        ensures { Takes None self.old.ifs statement.now behind.now result self.new }
    {
        let opened = opens(statement.words.as_slice());
        self.block = opened;
        self.ifs = Stack::new(alloc);
        fault_of_line(opened, statement, behind)
    }

    // Takes the statement that ends the block; gives its fault, if it has one.
    #[tactic(auto, unfolding(crate::specs::Blocks::past, crate::specs::Broken::fault_at))]
    fn take_end(
        &mut self,
        alloc: Global,
        kind: BlockKind,
        statement: &Statement,
        behind: &[Statement],
    ) -> Option<TextFault>
        requires { ends_block kind statement.now.words ≡ true }
        ensures { Takes (Some kind) self.old.ifs statement.now behind.now result self.new }
    {
        if self.ifs.pop().is_some() {
            return misplaced(statement);
        }
        self.block = None;
        self.ifs = Stack::new(alloc);
        None
    }

    // Takes a statement of a block; gives its fault, if it has one.
    #[tactic(auto, unfolding(crate::specs::Blocks::past, crate::specs::Broken::fault_at))]
    fn take_within(
        &mut self,
        alloc: Global,
        kind: BlockKind,
        statement: &Statement,
        behind: &[Statement],
    ) -> Result<Option<TextFault>, Memory>
        requires { self.old.block ≡ Some kind }
        ensures { IfOk result (λ fault. Takes (Some kind) self.old.ifs statement.now behind.now fault self.new) }
    {
        let words = statement.words.as_slice();
        if ends_block(kind, words) {
            return Ok(self.take_end(alloc, kind, statement, behind));
        }
        let placed = take_keyword(&mut self.ifs, keyword(kind, words))?;
        if placed {
            return Ok(None);
        }
        Ok(misplaced(statement))
    }

    // Takes a statement; gives its fault, if it has one.
    fn take(
        &mut self,
        alloc: Global,
        statement: &Statement,
        behind: &[Statement],
    ) -> Result<Option<TextFault>, Memory>
        ensures { IfOk result (λ fault. Takes self.old.block self.old.ifs statement.now behind.now fault self.new) }
    {
        match self.block {
            None => Ok(self.take_line(alloc, statement, behind)),
            Some(kind) => self.take_within(alloc, kind, statement, behind),
        }
    }
}

/// The first fault of the statements of a text, if they are broken. It takes time in step with their number:
/// behind each line that opens a block its end is looked for, and no further.
#[tactic(auto, unfolding(crate::specs::Broken::broken_from))]
pub(crate) fn broken(alloc: Global, statements: &[Statement]) -> Result<Option<TextFault>, Memory>
    ensures { IfOk result (λ o. o ≡ broken statements.now) }
{
    let mut standing = Standing::outside(alloc);
    let mut rest = statements;
    while let [first, tail @ ..] = rest {
        let fault = standing.take(alloc, first, tail)?;
        if fault.is_some() {
            return Ok(fault);
        }
        rest = tail;
    }
    Ok(None)
}
