//! The elements of the sets that statements name or have.
ghost use Rattle.std.specs.Prelude.{◌≡◌, List, ℕ, [], ◌∷◌, ◌++◌, Option, None, IfOk, OnOk, map, option_map};
ghost use Rattle.rpl_forms.specs.declared.item.RplForm.{RplForm as SpecForm};
ghost use Rattle.rpl_meaning.specs.Blocks.{Tells, block_or, word_in};
ghost use Rattle.rpl_meaning.specs.Sets.{prefix_in, community_in, path_in, elements, members, below};
ghost use Rattle.rpl_tree.specs.Tree.{forms};

use crate::blocks::{BlockSort, Blocks, CommunitySets, PathSets, PrefixSets};
use crate::words::{Words, word_of};
use route_types::{Memory, Rect};
use rpl_forms::{Element, PathElement, PrefixElement, RplForm, RplItem, RplSet};
use std::alloc::Global;

/// A sort of sets, by its elements.
pub(crate) trait SetSort<E>: BlockSort {
    ghost read: { SpecForm → Option E };

    /// The element that a form is.
    fn element_in(form: &RplForm) -> Option<&E>
        ensures { option_map (λ e. e.now) result ≡ read form.now };
}

impl SetSort<PrefixElement> for PrefixSets {
    ghost read = { prefix_in };

    fn element_in(form: &RplForm) -> Option<&PrefixElement> {
        match form {
            RplForm::Element(Element::Prefix(element)) => Some(element),
            _ => None,
        }
    }
}

impl SetSort<Rect> for CommunitySets {
    ghost read = { community_in };

    fn element_in(form: &RplForm) -> Option<&Rect> {
        match form {
            RplForm::Element(Element::Community(element)) => Some(element),
            _ => None,
        }
    }
}

impl SetSort<PathElement> for PathSets {
    ghost read = { path_in };

    fn element_in(form: &RplForm) -> Option<&PathElement> {
        match form {
            RplForm::Element(Element::Path(element)) => Some(element),
            _ => None,
        }
    }
}

// The elements at the front of items.
#[tactic(auto, unfolding(crate::specs::Sets::elements))]
pub(crate) fn elements_at<'a, E, S: SetSort<E>>(
    alloc: Global,
    items: &'a [RplItem],
) -> Result<Vec<&'a E>, Memory>
    ensures { IfOk result (λ v. map (λ e. e.now) v.items ≡ elements S.read (forms items.now)) }
{
    let mut found = Vec::new(alloc);
    let mut rest = items;
    while let [first, tail @ ..] = rest {
        let Some(element) = S::element_in(&first.form) else {
            return Ok(found);
        };
        found.push(element)?;
        rest = tail;
    }
    Ok(found)
}

// The elements, each lent.
pub(crate) fn lent<'a, E>(alloc: Global, elements: &'a [E]) -> Result<Vec<&'a E>, Memory>
    ensures { IfOk result (λ v. map (λ e. e.now) v.items ≡ elements.now) }
{
    let mut found = Vec::new(alloc);
    let mut rest = elements;
    while let [first, tail @ ..] = rest {
        found.push(first)?;
        rest = tail;
    }
    Ok(found)
}

// What stands below the first line of the block of this name.
pub(crate) fn below_first<'a>(blocks: &Blocks<'a>, name: &'a [u8]) -> &'a [RplItem]
    ensures { forms result.now ≡ below (block_or blocks.now.entries name.now []) }
{
    match blocks.get(name) {
        Some([_, behind @ ..]) => behind,
        _ => &[],
    }
}

// The elements of the set of this name.
fn named<'a, E, S: SetSort<E>>(
    alloc: Global,
    blocks: &Blocks<'a>,
    name: &'a [u8],
) -> Result<Vec<&'a E>, Memory>
    ensures { IfOk result (λ v. map (λ e. e.now) v.items ≡ elements S.read (below (block_or blocks.now.entries name.now []))) }
{
    elements_at::<E, S>(alloc, below_first(blocks, name))
}

/// The elements of a set that a statement names or has.
pub(crate) fn members_of<'a, E, S: SetSort<E>>(
    alloc: Global,
    items: &'a [RplItem],
    blocks: &Blocks<'a>,
    words: &Words<'a>,
    set: &'a RplSet<E>,
) -> Result<Vec<&'a E>, Memory>
    requires { Tells S.named blocks.now.entries items.now }
    ensures { IfOk result (λ v. map (λ e. e.now) v.items ≡ members S.named S.read (forms items.now) (word_in words.now.entries) set.now) }
{
    match set {
        RplSet::Named(name) => named::<E, S>(alloc, blocks, name.as_slice()),
        RplSet::Parameter(x) => named::<E, S>(alloc, blocks, word_of(words, x.as_slice())),
        RplSet::Listed(elements) => lent(alloc, elements.as_slice()),
    }
}
