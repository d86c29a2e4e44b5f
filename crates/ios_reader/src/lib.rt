//! Checks that a policy of the tree of an IOS text lies in the profile. It stands on `ios_tree`, whose public items
//! it gives on, and on what lies below that. Its definitions are in `specs/`: what is reached, the causes, each a rule
//! of its own, and the first fault. Where the first fault is, and when there is none, is the law in `laws`.
#![tactic(auto)]

mod check;
mod checked;
mod faults;
mod items;
mod known;
mod laws;
mod lines;
mod names;
mod place;
mod settings;
mod takes;

pub use check::{check_ios, check_ios_within};
pub use checked::CheckedIos;
pub use ios_tree::{
    CommunityListEntry, CommunityMatch, CommunitySetting, CommunityShape, IosForm, IosItem,
    IosTree, ItemSort, MapHeader, MapLine, OtherItem, PathListEntry, PathMatch, PrefixDescription,
    PrefixListEntry, PrefixMatch, forms_are_spelled, read_ios,
};
pub use laws::first_fault_is_least;
pub use takes::{AllForms, Takes};
