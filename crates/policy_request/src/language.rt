// The languages that policies are read in for judge: the word of each, and the names in a policy word.
ghost use Rattle.std.specs.Prelude.{◌≡◌, ◌≤◌, [], ◌∷◌, IfOk, length, take};
ghost use Rattle.policy_request.specs.Languages.{are_given, language_in, names_from, names_in, texts_of};

use route_types::Memory;
use std::alloc::Global;

/// A language that judge reads policies in.
#[derive(Clone, Copy, Debug, PartialEq, Eq)]
pub enum Language {
    /// Cisco IOS: a policy is a route-map.
    Ios,
    /// Junos: a policy is a chain of policy-statements.
    Junos,
    /// RPL, the route policy language of IOS XR: a policy is a route-policy.
    Rpl,
}

/// The language of a word, if it has one.
pub fn language_in(word: &[u8]) -> Option<Language>
    ensures { result ≡ language_in word.now }
{
    if word == b"ios".as_slice() {
        return Some(Language::Ios);
    }
    if word == b"junos".as_slice() {
        return Some(Language::Junos);
    }
    if word == b"rpl".as_slice() {
        return Some(Language::Rpl);
    }
    None
}

/// Whether no name in a policy word of a language is empty.
pub(crate) fn are_given(language: Language, word: &[u8]) -> bool
    ensures { result ≡ are_given (names_in language word.now) }
{
    match language {
        Language::Ios | Language::Rpl => !word.is_empty(),
        Language::Junos => is_chain(word),
    }
}

/// Whether no name between the commas of a word is empty.
#[tactic(auto, unfolding(crate::specs::Languages::are_given_from), using(crate::proofs::Chains::given))]
fn is_chain(word: &[u8]) -> bool
    ensures { result ≡ are_given (names_from [] word.now) }
{
    let mut begun = false;
    let mut rest = word;
    while let [byte, tail @ ..] = rest {
        if *byte != b',' {
            begun = true;
        } else if begun {
            begun = false;
        } else {
            return false;
        }
        rest = tail;
    }
    begun
}

/// The first bytes of a text.
fn first_bytes(text: &[u8], count: usize) -> &[u8]
    requires { count ≤ length text.now }
    ensures { result.now ≡ take count text.now }
{
    let (first, _) = text.split_at(count);
    first
}

/// The names between the commas of a word, at least one.
fn chain_names<'a>(alloc: Global, word: &'a [u8]) -> Result<Vec<&'a [u8]>, Memory>
    ensures { IfOk result (λ names. texts_of names.items ≡ names_from [] word.now) }
{
    let mut names = Vec::new(alloc);
    let mut from = word;
    let mut begun = 0;
    let mut rest = word;
    while let [byte, tail @ ..] = rest {
        if *byte == b',' {
            names.push(first_bytes(from, begun))?;
            from = tail;
            begun = 0;
        } else {
            begun += 1;
        }
        rest = tail;
    }
    names.push(from)?;
    Ok(names)
}

/// The word alone.
fn one_name<'a>(alloc: Global, word: &'a [u8]) -> Result<Vec<&'a [u8]>, Memory>
    ensures { IfOk result (λ names. texts_of names.items ≡ word.now ∷ []) }
{
    let mut names = Vec::new(alloc);
    names.push(word)?;
    Ok(names)
}

/// The names in a policy word of a language: those between its commas in Junos, else the whole word. Its one error is
/// want of memory.
pub fn names_of<'a>(
    alloc: Global,
    language: Language,
    word: &'a [u8],
) -> Result<Vec<&'a [u8]>, Memory>
    ensures { IfOk result (λ names. texts_of names.items ≡ names_in language word.now) }
{
    match language {
        Language::Ios | Language::Rpl => one_name(alloc, word),
        Language::Junos => chain_names(alloc, word),
    }
}
