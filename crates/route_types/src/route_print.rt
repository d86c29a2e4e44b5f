ghost use Rattle.std.specs.Prelude.{◌≡◌, ◌++◌, ◌∷◌, [], IfOk, codes, decimal, map};
ghost use Rattle.text_words.specs.Pieces.{text_behind};
ghost use Rattle.text_words.specs.LineText.{line_text};
ghost use Rattle.route_types.specs.Print.{prefix_text};
ghost use Rattle.route_types.specs.RouteText.{origin_text, next_hop_text, community_text, route_text};

use crate::address::Prefix;
use crate::community::Community;
use crate::print::{push_address, push_number, push_prefix};
use crate::route::{NextHop, Origin, Route};
use itoa::Buffer;
use std::alloc::Global;
use text_words::{Memory, push_line};

fn push_prefix_line(alloc: Global, out: &mut Vec<u8>, prefix: &Prefix) -> Result<(), Memory>
    ensures { IfOk result (λ _. out.new.items ≡ out.old.items ++ line_text (codes "route" ∷ prefix_text prefix.now ∷ [])) }
{
    let mut word = Vec::new(alloc);
    push_prefix(&mut word, prefix)?;
    push_line(out, &[b"route", word.as_slice()])
}

// The word of a next hop.
fn next_hop_text(alloc: Global, next_hop: &NextHop) -> Result<Vec<u8>, Memory>
    ensures { IfOk result (λ word. word.items ≡ next_hop_text next_hop.now) }
{
    let mut word = Vec::new(alloc);
    match next_hop {
        NextHop::At(address) => push_address(&mut word, address)?,
        NextHop::Own => word.extend_from_slice(b"self")?,
    }
    Ok(word)
}

fn push_next_hop_line(alloc: Global, out: &mut Vec<u8>, next_hop: &NextHop) -> Result<(), Memory>
    ensures { IfOk result (λ _. out.new.items ≡ out.old.items ++ line_text (codes "next-hop" ∷ next_hop_text next_hop.now ∷ [])) }
{
    let word = next_hop_text(alloc, next_hop)?;
    push_line(out, &[b"next-hop", word.as_slice()])
}

// The word of an origin.
fn origin_text(origin: &Origin) -> &'static [u8]
    ensures { result.now ≡ origin_text origin.now }
{
    match origin {
        Origin::Igp => b"igp",
        Origin::Egp => b"egp",
        Origin::Incomplete => b"incomplete",
    }
}

fn push_origin_line(out: &mut Vec<u8>, origin: &Origin) -> Result<(), Memory>
    ensures { IfOk result (λ _. out.new.items ≡ out.old.items ++ line_text (codes "origin" ∷ origin_text origin.now ∷ [])) }
{
    push_line(out, &[b"origin", origin_text(origin)])
}

fn push_number_line(out: &mut Vec<u8>, name: &[u8], number: u64) -> Result<(), Memory>
    ensures { IfOk result (λ _. out.new.items ≡ out.old.items ++ line_text (name.now ∷ decimal number ∷ [])) }
{
    let mut buffer = Buffer::new();
    push_line(out, &[name, buffer.format(number).as_bytes()])
}

// Numbers, each behind one space.
fn push_numbers(out: &mut Vec<u8>, numbers: &[u32]) -> Result<(), Memory>
    ensures { IfOk result (λ _. out.new.items ≡ out.old.items ++ text_behind (map decimal numbers.now)) }
{
    let mut rest = numbers;
    while let [first, tail @ ..] = rest {
        out.push(b' ')?;
        push_number(out, u64::from(*first))?;
        rest = tail;
    }
    Ok(())
}

#[tactic(auto, unfolding(text_words::specs::Pieces::words_text))]
fn push_path_line(out: &mut Vec<u8>, path: &[u32]) -> Result<(), Memory>
    ensures { IfOk result (λ _. out.new.items ≡ out.old.items ++ line_text (codes "as-path" ∷ map decimal path.now)) }
{
    out.extend_from_slice(b"as-path")?;
    push_numbers(out, path)?;
    out.push(b'\n')?;
    Ok(())
}

fn push_community(out: &mut Vec<u8>, community: &Community) -> Result<(), Memory>
    ensures { IfOk result (λ _. out.new.items ≡ out.old.items ++ community_text community.now) }
{
    push_number(out, u64::from(community.high()))?;
    out.push(b':')?;
    push_number(out, u64::from(community.low()))?;
    Ok(())
}

// Communities, each behind one space.
fn push_communities(out: &mut Vec<u8>, communities: &[Community]) -> Result<(), Memory>
    ensures { IfOk result (λ _. out.new.items ≡ out.old.items ++ text_behind (map community_text communities.now)) }
{
    let mut rest = communities;
    while let [first, tail @ ..] = rest {
        out.push(b' ')?;
        push_community(out, first)?;
        rest = tail;
    }
    Ok(())
}

#[tactic(auto, unfolding(text_words::specs::Pieces::words_text))]
fn push_communities_line(out: &mut Vec<u8>, communities: &[Community]) -> Result<(), Memory>
    ensures { IfOk result (λ _. out.new.items ≡ out.old.items ++ line_text (codes "communities" ∷ map community_text communities.now)) }
{
    out.extend_from_slice(b"communities")?;
    push_communities(out, communities)?;
    out.push(b'\n')?;
    Ok(())
}

/// The text of a route: eight lines, each with an LF behind it, words set apart by one space, the
/// communities in rising order. `read_route` reads it as the route, where the addresses are IPv4
/// ones; of an IPv6 address the text has the last 32 bits. The one error is want of memory.
pub fn print_route(alloc: Global, route: &Route) -> Result<Vec<u8>, Memory>
    ensures { IfOk result (λ text. text.items ≡ route_text route.now) }
{
    let mut out = Vec::new(alloc);
    push_prefix_line(alloc, &mut out, route.prefix())?;
    push_next_hop_line(alloc, &mut out, route.next_hop())?;
    push_path_line(&mut out, route.path())?;
    push_origin_line(&mut out, route.origin())?;
    push_number_line(
        &mut out,
        b"local-preference",
        u64::from(route.local_preference()),
    )?;
    push_number_line(&mut out, b"med", u64::from(route.med()))?;
    push_number_line(&mut out, b"weight", u64::from(route.weight()))?;
    push_communities_line(&mut out, route.communities())?;
    Ok(out)
}
