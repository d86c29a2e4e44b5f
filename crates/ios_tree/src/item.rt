use aspath_text::IosPattern;
use policy_text::Span;
use prefix_sets::PrefixEntry;
use route_types::{Address, Community, Family, Origin, Rect, Row};

/// A statement of a policy, and where it stands.
#[derive(Debug, Drop)]
pub struct IosItem {
    pub form: IosForm,
    pub span: Span,
}

/// What a statement says (Cisco IOS IP Routing: BGP and Protocol-Independent command references).
#[derive(Debug, Drop)]
pub enum IosForm {
    /// `ip prefix-list N [seq S] permit|deny P [ge G] [le E]`
    PrefixEntry(PrefixListEntry),
    /// `ip prefix-list N [seq S] description W..`: it has no meaning, and no list is there by it.
    PrefixDescription(PrefixDescription),
    /// `ip community-list n|standard N|expanded N permit|deny ..`
    CommunityEntry(CommunityListEntry),
    /// `ip as-path access-list n permit|deny X`
    PathEntry(PathListEntry),
    /// `route-map N permit|deny S`
    MapHeader(MapHeader),
    /// A line of the entry that is open.
    Line(MapLine),
    /// A statement of no known form.
    Other(OtherItem),
}

/// An entry of a prefix list. A list name of digits alone has no leading zeros here.
#[derive(Debug, Drop)]
pub struct PrefixListEntry {
    pub list: Row<u8>,
    /// Whether the number is written. One that isn't is 5 more than the greatest number that the list
    /// has before it in the text.
    pub has_seq: bool,
    /// The place of the entry in its list, 0 to 2^64 - 1.
    pub number: u64,
    pub entry: PrefixEntry,
}

/// A description of a prefix list.
#[derive(Debug, Drop)]
pub struct PrefixDescription {
    pub family: Family,
    pub list: Row<u8>,
}

/// An entry of a community list. A list name of digits alone has no leading zeros here.
#[derive(Debug, Drop)]
pub struct CommunityListEntry {
    pub list: Row<u8>,
    pub permit: bool,
    pub shape: CommunityShape,
}

/// What an entry of a community list asks for.
#[derive(Debug, Drop)]
pub enum CommunityShape {
    /// All of these communities: an entry of a standard list.
    Standard(Row<Community>),
    /// Some community of this rectangle: an entry of an expanded list.
    Expanded(Rect),
}

/// An entry of a path list.
#[derive(Debug, Drop)]
pub struct PathListEntry {
    /// The number of the list, 1 to 2^64 - 1, in decimal.
    pub list: Row<u8>,
    pub permit: bool,
    /// What is looked for in the text of a path.
    pub pattern: IosPattern,
}

/// The first line of an entry of a route-map.
#[derive(Debug, Drop)]
pub struct MapHeader {
    pub map: Row<u8>,
    pub permit: bool,
    /// The place of the entry in its map, 0 to 2^64 - 1.
    pub number: u64,
}

/// A line of an entry of a route-map.
#[derive(Debug, Drop)]
pub enum MapLine {
    /// `match ip address prefix-list N..`
    MatchPrefix(PrefixMatch),
    /// `match ip next-hop prefix-list N..`
    MatchNextHop(PrefixMatch),
    /// `match community N.. [exact-match]`
    MatchCommunity(CommunityMatch),
    /// `match as-path n..`
    MatchPath(PathMatch),
    /// `match metric n..`
    MatchMetric(Row<u32>),
    /// `set local-preference n`
    SetLocalPreference(u32),
    /// `set metric n`
    SetMetric(u32),
    /// `set weight n`
    SetWeight(u16),
    /// `set as-path prepend n..`: the numbers as they will stand before the path.
    SetPrepend(Row<u32>),
    /// `set origin igp|incomplete`
    SetOrigin(Origin),
    /// `set ip next-hop A`
    SetNextHop(Address),
    /// `set community C.. [additive]`, `set community none`
    SetCommunity(CommunitySetting),
    /// `set comm-list N delete`
    DeleteCommunities(Row<u8>),
    /// `continue`, `continue S`
    Continue(Option<u64>),
    /// `description W..`: it has no meaning.
    Description,
}

/// The prefix lists that a line names; one of them has to hold.
#[derive(Debug, Drop)]
pub struct PrefixMatch {
    pub family: Family,
    pub lists: Row<Row<u8>>,
}

/// The community lists that a line names; one of them has to hold.
#[derive(Debug, Drop)]
pub struct CommunityMatch {
    pub lists: Row<Row<u8>>,
    /// Whether the communities of a route have to be exactly those of an entry.
    pub exact: bool,
}

/// The path lists that a line names, each by its number in decimal; one of them has to hold.
#[derive(Debug, Drop)]
pub struct PathMatch {
    pub lists: Row<Row<u8>>,
}

/// The communities that a line sets, none for `none`.
#[derive(Debug, Drop)]
pub struct CommunitySetting {
    pub communities: Row<Community>,
    /// Whether they are added to those that the route has, and not put in their place.
    pub additive: bool,
}

/// A statement of no known form: what it would be, and the name that it stands under, if any.
#[derive(Debug, Drop)]
pub struct OtherItem {
    pub sort: ItemSort,
    pub name: Option<Row<u8>>,
}

/// What a statement belongs to, by its first words.
#[derive(Clone, Copy, Debug, PartialEq, Eq)]
pub enum ItemSort {
    /// It starts with `ip prefix-list`.
    PrefixList(Family),
    /// It starts with `ip community-list`.
    CommunityList,
    /// It starts with `ip as-path access-list`.
    PathList,
    /// It starts with `route-map`.
    Map,
    /// A line of the open entry.
    Line,
}
