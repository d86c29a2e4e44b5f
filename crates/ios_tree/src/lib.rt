//! Reads Cisco IOS route-maps and the lists that they name as a tree. It stands on `policy_text`,
//! `aspath_text`, `prefix_sets` and `community_sets`. Its definitions are in `specs/`: the names and forms,
//! and the tree. That the forms are found exactly where their words are spelled is the law in `laws`.
#![tactic(auto)]

mod item;
mod items;
mod laws;
mod lines;
mod lists;
mod number;
mod read;
mod tree;
mod words;

pub use item::{
    CommunityListEntry, CommunityMatch, CommunitySetting, CommunityShape, IosForm, IosItem,
    ItemSort, MapHeader, MapLine, OtherItem, PathListEntry, PathMatch, PrefixDescription,
    PrefixListEntry, PrefixMatch,
};
pub use laws::{forms_are_spelled, one_reading};
pub use read::read_ios;
pub use tree::IosTree;
