// The blocks of sets.
ghost use Rattle.std.specs.Prelude.{◌≡◌, ◌<◌, ◌^◌, ◌++◌, ℕ, List, length, map, OnOk, IfOk};
ghost use Rattle.route_types.specs.Community.{RectParts};
ghost use Rattle.rpl_words.specs.declared.element.Element.{Element as IsElement};
ghost use Rattle.rpl_words.specs.declared.element.Element.TheVariants.{Community as OfCommunity};
ghost use Rattle.rpl_forms.specs.declared.item.Header.{Header as IsHeader};
ghost use Rattle.rpl_forms.specs.declared.item.Header.TheVariants.{PrefixSet as HeadsPrefixes, CommunitySet as HeadsCommunities, PathSet as HeadsPaths};
ghost use Rattle.rpl_forms.specs.declared.item.RplForm.TheVariants.{Element as OfElement};
ghost use Rattle.rpl_layout.specs.Forms.{HasFew, pattern_of, range_element, set_name, block_of, blocks_from, prefix_elements, community_elements, path_elements, prefix_blocks, community_blocks, path_blocks};

use crate::names::set_name;
use crate::sets::{PlanSets, all};
use aspath_text::{IosPattern, PatternFault, read_ios_pattern};
use prefix_sets::PrefixRange;
use route_types::{Memory, Rect, Row};
use rpl_forms::{Header, RplForm};
use rpl_words::{Element, PathElement, PrefixElement, RplNumber};
use std::alloc::Global;

// ---- elements

fn range_element(range: &PrefixRange) -> PrefixElement
    ensures { result ≡ range_element range.now }
{
    PrefixElement {
        prefix: range.prefix(),
        least: RplNumber::Fixed(range.least()),
        most: RplNumber::Fixed(range.most()),
    }
}

fn push_ranges(out: &mut Row<RplForm>, ranges: &[PrefixRange]) -> Result<(), Memory>
    ensures { OnOk result (out.new ≡ out.old ++ map OfElement (prefix_elements ranges.now)) }
{
    let mut rest = ranges;
    while let [range, tail @ ..] = rest {
        out.push(RplForm::Element(Element::Prefix(range_element(range))))?;
        rest = tail;
    }
    Ok(())
}

fn push_rects(out: &mut Row<RplForm>, rects: &[Rect]) -> Result<(), Memory>
    ensures { OnOk result (out.new ≡ out.old ++ map OfElement (community_elements rects.now)) }
{
    let mut rest = rects;
    while let [rect, tail @ ..] = rest {
        out.push(RplForm::Element(Element::Community(*rect)))?;
        rest = tail;
    }
    Ok(())
}

// The pattern that a text spells. `Memory` comes too where it spells none, as no text of a plan does.
fn pattern_of(alloc: Global, text: &[u8]) -> Result<IosPattern, Memory>
    ensures { IfOk result (λ pattern. pattern ≡ pattern_of text.now) }
{
    match read_ios_pattern(alloc, text) {
        Ok(pattern) => Ok(pattern),
        Err(_) => Err(Memory),
    }
}

fn push_texts(alloc: Global, out: &mut Row<RplForm>, texts: &[Row<u8>]) -> Result<(), Memory>
    ensures { OnOk result (out.new ≡ out.old ++ map OfElement (path_elements texts.now)) }
{
    let mut rest = texts;
    while let [text, tail @ ..] = rest {
        let pattern = pattern_of(alloc, text.as_slice())?;
        out.push(RplForm::Element(Element::Path(PathElement::Pattern(pattern))))?;
        rest = tail;
    }
    Ok(())
}

// ---- the sorts of sets

/// How sets of a sort are written.
trait SetSort<D> {
    ghost head: { List ℕ → IsHeader };

    ghost elements: { D → List IsElement };

    /// The first line of the set of this name.
    fn head(name: Row<u8>) -> Header
        ensures { result ≡ head name };

    /// Puts the elements of a set at the end. Its one error is want of memory.
    fn push_elements(alloc: Global, out: &mut Row<RplForm>, set: &D) -> Result<(), Memory>
        ensures { OnOk result (out.new ≡ out.old ++ map OfElement (elements set.now)) };
}

struct PrefixSets;

impl SetSort<Row<PrefixRange>> for PrefixSets {
    ghost head = { λ n. HeadsPrefixes n };

    ghost elements = { prefix_elements };

    fn head(name: Row<u8>) -> Header {
        Header::PrefixSet(name)
    }

    fn push_elements(
        _alloc: Global,
        out: &mut Row<RplForm>,
        set: &Row<PrefixRange>,
    ) -> Result<(), Memory> {
        push_ranges(out, set.as_slice())
    }
}

struct CommunitySets;

impl SetSort<Row<Rect>> for CommunitySets {
    ghost head = { λ n. HeadsCommunities n };

    ghost elements = { community_elements };

    fn head(name: Row<u8>) -> Header {
        Header::CommunitySet(name)
    }

    fn push_elements(
        _alloc: Global,
        out: &mut Row<RplForm>,
        set: &Row<Rect>,
    ) -> Result<(), Memory> {
        push_rects(out, set.as_slice())
    }
}

struct PathSets;

impl SetSort<Row<Row<u8>>> for PathSets {
    ghost head = { λ n. HeadsPaths n };

    ghost elements = { path_elements };

    fn head(name: Row<u8>) -> Header {
        Header::PathSet(name)
    }

    fn push_elements(
        alloc: Global,
        out: &mut Row<RplForm>,
        set: &Row<Row<u8>>,
    ) -> Result<(), Memory> {
        push_texts(alloc, out, set.as_slice())
    }
}

// ---- blocks

// The block of the set at a place.
fn push_block<D, S: SetSort<D>>(
    alloc: Global,
    out: &mut Row<RplForm>,
    name: &[u8],
    letter: &[u8],
    place: usize,
    set: &D,
) -> Result<(), Memory>
    requires { place < 2 ^ 63 }
    ensures { OnOk result (out.new ≡ out.old ++ block_of (S.head (set_name name.now letter.now place)) (S.elements set.now)) }
{
    let name = set_name(alloc, name, letter, place)?;
    out.push(RplForm::Header(S::head(name)))?;
    S::push_elements(alloc, out, set)?;
    out.push(RplForm::End)
}

// The blocks of sets, which have the places from 0 on.
#[tactic(auto, unfolding(rpl_layout::specs::Forms::blocks_from))]
fn push_each_block<D, S: SetSort<D>>(
    alloc: Global,
    out: &mut Row<RplForm>,
    name: &[u8],
    letter: &[u8],
    sets: &[D],
) -> Result<(), Memory>
    requires { length sets.now < 2 ^ 63 }
    ensures { OnOk result (out.new ≡ out.old ++ blocks_from (λ n. S.head (set_name name.now letter.now n)) S.elements 0 sets.now) }
{
    let mut place: usize = 0;
    let mut rest = sets;
    while let [set, tail @ ..] = rest {
        push_block::<D, S>(alloc, out, name, letter, place, set)?;
        place += 1;
        rest = tail;
    }
    Ok(())
}

/// Puts the blocks of the sets at the end, prefix sets, community sets and path sets. The error is want of memory; it comes
/// too where a text of a path set spells no pattern.
pub(crate) fn push_blocks(
    alloc: Global,
    out: &mut Row<RplForm>,
    name: &[u8],
    sets: &PlanSets,
) -> Result<(), Memory>
    ensures blocks { OnOk result (out.new ≡ out.old ++ (prefix_blocks name.now sets.now.prefixes ++ (community_blocks name.now sets.now.communities ++ path_blocks name.now sets.now.paths))) }
    ensures few { OnOk result (HasFew sets.now) }
{
    push_each_block::<Row<PrefixRange>, PrefixSets>(alloc, out, name, b"-p", all(&sets.prefixes))?;
    push_each_block::<Row<Rect>, CommunitySets>(alloc, out, name, b"-c", all(&sets.communities))?;
    push_each_block::<Row<Row<u8>>, PathSets>(alloc, out, name, b"-a", all(&sets.paths))
}
