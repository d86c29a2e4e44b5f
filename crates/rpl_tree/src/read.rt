ghost use Rattle.std.specs.Prelude.{◌≡◌, length, Some, IfOk, IfErr};
ghost use Rattle.text_words.specs.RplCut.{rpl_cut};
ghost use Rattle.rpl_tree.specs.Broken.{BreakAsTold, IsFault, broken};
ghost use Rattle.rpl_tree.specs.Reading.{Reads, HasNoTree};
ghost use Rattle.rpl_tree.specs.Spans.{SpansRise};
ghost use Rattle.rpl_tree.specs.Tree.{Gives, rpl_tree};

use crate::broken::broken;
use crate::items::items_of;
use crate::tree::RplTree;
use std::alloc::Global;
use text_words::{TextFault, rpl_statements};

// The tree of a text, or its first fault.
#[tactic(auto, unfolding(crate::specs::Tree::tree_in))]
fn tree_or_fault(alloc: Global, text: &[u8]) -> Result<RplTree, TextFault>
    ensures { Gives (rpl_cut text.now) result }
{
    let statements = rpl_statements(alloc, text)?;
    if let Some(fault) = broken(alloc, statements.as_slice())? {
        return Err(fault);
    }
    let items = items_of(alloc, statements.as_slice())?;
    Ok(RplTree { items })
}

/// Reads the blocks of an RPL text (Cisco IOS XR Routing Configuration Guide, 'Implementing Routing
/// Policy'): the first line of each set and policy, its elements or statements, and the word that ends it,
/// each with its span in bytes from 0. A statement of a block that spells no form is an item `Other`; its
/// first word still opens, goes on with or closes an `if`. What stands outside blocks is dropped. The text
/// is broken, and has no tree, where a block doesn't end (`Unended`, the span of its first line), and where
/// `elseif`, `else` or `endif` stands without an open `if`, `elseif` or `else` behind an `else`, or
/// `end-policy` while an `if` is open (`Misplaced`, the span of that statement); the first of these in the
/// text is the fault. It takes time in step with the length of the text. The other fault is want of memory.
#[tactic(auto, using(crate::proofs::Trees::gives_tree, crate::proofs::Trees::gives_reading, crate::proofs::Trees::gives_rise, crate::proofs::Trees::gives_fault, crate::proofs::Trees::gives_first, crate::proofs::Trees::gives_none))]
pub fn read_rpl(alloc: Global, text: &[u8]) -> Result<RplTree, TextFault>
    // The tree is the one that the text reads as.
    ensures tree { IfOk result (λ t. rpl_tree text.now ≡ Some t) }
    // Its statements are broken nowhere, and read as the tree, one by one.
    ensures reads { IfOk result (λ t. Reads (rpl_cut text.now) t) }
    // The spans rise, and lie within the text.
    ensures spans { IfOk result (λ t. SpansRise (length text.now) t) }
    // A fault is the one of the text, with its span and its kind.
    ensures fault { IfErr result (IsFault (broken (rpl_cut text.now))) }
    // The text is broken there, and nowhere before.
    ensures first { IfErr result (BreakAsTold (rpl_cut text.now)) }
    // A text that is broken reads as no tree.
    ensures unread { IfErr result (HasNoTree (rpl_cut text.now)) }
{
    tree_or_fault(alloc, text)
}
