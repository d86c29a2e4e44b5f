//! Patterns as kinds of words, for the walks over words of statements.

ghost use Rattle.aspath_text.specs.IosRead.{ios_pattern_in};
ghost use Rattle.aspath_text.specs.JunosRead.{junos_pattern_in};

use crate::fault::PatternFault;
use crate::ios_read::read_ios_pattern;
use crate::junos_read::read_junos_pattern;
use path_patterns::{IosPattern, TokenPattern};
use policy_text::Reads;
use route_types::Memory;
use std::alloc::Global;

/// A word that spells an AS-path pattern of IOS.
pub struct IosPatternWord;

impl Reads<IosPattern> for IosPatternWord {
    ghost find = { ios_pattern_in };

    fn read(alloc: Global, word: &[u8]) -> Result<Option<IosPattern>, Memory> {
        match read_ios_pattern(alloc, word) {
            Ok(pattern) => Ok(Some(pattern)),
            Err(PatternFault::NotShaped) => Ok(None),
            Err(PatternFault::Memory) => Err(Memory),
        }
    }
}

/// A word that spells an AS-path pattern of Junos.
pub struct JunosPatternWord;

impl Reads<TokenPattern> for JunosPatternWord {
    ghost find = { junos_pattern_in };

    fn read(alloc: Global, word: &[u8]) -> Result<Option<TokenPattern>, Memory> {
        match read_junos_pattern(alloc, word) {
            Ok(pattern) => Ok(Some(pattern)),
            Err(PatternFault::NotShaped) => Ok(None),
            Err(PatternFault::Memory) => Err(Memory),
        }
    }
}
