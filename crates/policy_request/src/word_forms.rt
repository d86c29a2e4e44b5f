// The forms of words that name policies.
ghost use Rattle.std.specs.Prelude.{◌≡◌, Some};
ghost use Rattle.std.specs.List.{list_all};
ghost use Rattle.policy_request.specs.NewNames.{is_letter, is_name_byte, is_new_name};
ghost use Rattle.policy_request.specs.Words.{is_policy_byte, is_policy_word, is_policy_word_of};

use crate::language::{Language, are_given};

fn is_policy_byte(byte: u8) -> bool
    ensures { result ≡ is_policy_byte byte }
{
    byte >= 33 && byte != b'"' && byte != b'\''
}

fn are_policy_bytes(bytes: &[u8]) -> bool
    ensures { result ≡ list_all is_policy_byte bytes.now }
{
    bytes.iter().all(|byte| is_policy_byte(*byte))
}

/// Whether a word names a policy of a source.
pub fn is_policy_word(word: &[u8]) -> bool
    ensures { result ≡ is_policy_word word.now }
{
    !word.is_empty() && are_policy_bytes(word)
}

/// Whether a word names policies of a source in a language.
pub fn is_policy_word_of(language: Language, word: &[u8]) -> bool
    ensures { result ≡ is_policy_word_of (Some language) word.now }
{
    is_policy_word(word) && are_given(language, word)
}

fn is_letter(byte: u8) -> bool
    ensures { result ≡ is_letter byte }
{
    byte.is_ascii_alphabetic()
}

fn is_name_byte(byte: u8) -> bool
    ensures { result ≡ is_name_byte byte }
{
    is_letter(byte) || byte.is_ascii_digit() || byte == b'-' || byte == b'_'
}

fn are_name_bytes(bytes: &[u8]) -> bool
    ensures { result ≡ list_all is_name_byte bytes.now }
{
    bytes.iter().all(|byte| is_name_byte(*byte))
}

/// Whether a word names a policy of a target.
pub fn is_new_name(word: &[u8]) -> bool
    ensures { result ≡ is_new_name word.now }
{
    let [first, rest @ ..] = word else {
        return false;
    };
    is_letter(*first) && are_name_bytes(rest) && rest.len() <= 62
}
