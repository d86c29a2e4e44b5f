//! The kinds of constructs, and the table of what each language can say.

ghost use Rattle.std.specs.Prelude.{◌≡◌};
ghost use Rattle.expressible_table.specs.Grants.{ios_grants, junos_grants, rpl_grants, grants};
ghost use Rattle.expressible_table.specs.KindNames.{kind_name};

/// A language that policies are written in.
#[derive(Clone, Copy, Debug, PartialEq, Eq)]
pub enum Dialect {
    /// Cisco IOS route-maps.
    Ios,
    /// Junos policy-statements.
    Junos,
    /// The Route Policy Language of IOS XR.
    Rpl,
}

/// What a statement, test or action of a policy is.
#[derive(Clone, Copy, Debug, PartialEq, Eq)]
pub enum Kind {
    /// Where the run goes: headers of route-maps, `continue`; accept, reject and next of a term; the words of `if`, and
    /// `pass`, `done`, `drop`.
    Flow,
    /// A call of another policy.
    PolicyCall,
    /// A test of the protocol.
    ProtocolTest,
    /// A test of the route's prefix.
    PrefixTest,
    /// A test of the next hop whose entries are all of full length.
    NextHopAddressTest,
    /// Any other test of the next hop.
    NextHopRangeTest,
    /// A test of the AS path.
    PathTest,
    /// A test of the communities that is of no other kind.
    CommunityTest,
    /// A test or a deletion of communities with a half that is neither one number nor all, or by a list with an entry
    /// that denies.
    CommunityRange,
    /// A test for exactly these communities.
    ExactMatch,
    /// A test for no communities.
    IsEmpty,
    /// A test of communities of which an earlier deletion takes away a part.
    CutCommunityTest,
    /// A test of the MED for equality.
    MedEqualTest,
    /// A test of the MED for a least or a greatest value.
    MedOrderTest,
    /// A test of the local preference.
    LocalPreferenceTest,
    /// A test of the origin.
    OriginTest,
    /// The local preference is set.
    SetLocalPreference,
    /// The MED is set.
    SetMed,
    /// The weight is set.
    SetWeight,
    /// The origin is set to IGP or incomplete.
    SetOrigin,
    /// The origin is set to EGP.
    SetOriginEgp,
    /// The next hop is set to an address.
    SetNextHop,
    /// The next hop is set to the router itself.
    NextHopSelf,
    /// Numbers are put before the AS path.
    Prepend,
    /// Communities are set or added.
    CommunitySet,
    /// Any other deletion of communities.
    CommunityDelete,
}

fn ios_grants(kind: Kind) -> bool
    ensures { result ≡ ios_grants kind }
{
    match kind {
        Kind::CommunityRange | Kind::IsEmpty | Kind::CutCommunityTest | Kind::MedOrderTest => false,
        Kind::LocalPreferenceTest | Kind::OriginTest | Kind::SetOriginEgp | Kind::NextHopSelf => {
            false
        }
        _ => true,
    }
}

fn junos_grants(kind: Kind) -> bool
    ensures { result ≡ junos_grants kind }
{
    match kind {
        Kind::NextHopRangeTest | Kind::CommunityRange | Kind::ExactMatch | Kind::IsEmpty => false,
        Kind::CutCommunityTest | Kind::MedOrderTest | Kind::SetWeight => false,
        _ => true,
    }
}

fn rpl_grants(kind: Kind) -> bool
    ensures { result ≡ rpl_grants kind }
{
    match kind {
        Kind::ExactMatch | Kind::CutCommunityTest | Kind::LocalPreferenceTest => false,
        _ => true,
    }
}

/// Whether a text of the language can say constructs of this kind. It takes no memory.
pub fn grants(kind: Kind, target: Dialect) -> bool
    ensures { result ≡ grants kind target }
{
    match target {
        Dialect::Ios => ios_grants(kind),
        Dialect::Junos => junos_grants(kind),
        Dialect::Rpl => rpl_grants(kind),
    }
}

/// The name of a kind as it is printed: lower case, with dashes between its words. It takes no memory.
pub fn kind_name(kind: Kind) -> &'static str
    ensures { result.now ≡ kind_name kind }
{
    match kind {
        Kind::Flow => "flow",
        Kind::PolicyCall => "policy-call",
        Kind::ProtocolTest => "protocol-test",
        Kind::PrefixTest => "prefix-test",
        Kind::NextHopAddressTest => "next-hop-address-test",
        Kind::NextHopRangeTest => "next-hop-range-test",
        Kind::PathTest => "path-test",
        Kind::CommunityTest => "community-test",
        Kind::CommunityRange => "community-range",
        Kind::ExactMatch => "exact-match",
        Kind::IsEmpty => "is-empty",
        Kind::CutCommunityTest => "cut-community-test",
        Kind::MedEqualTest => "med-equal-test",
        Kind::MedOrderTest => "med-order-test",
        Kind::LocalPreferenceTest => "local-preference-test",
        Kind::OriginTest => "origin-test",
        Kind::SetLocalPreference => "set-local-preference",
        Kind::SetMed => "set-med",
        Kind::SetWeight => "set-weight",
        Kind::SetOrigin => "set-origin",
        Kind::SetOriginEgp => "set-origin-egp",
        Kind::SetNextHop => "set-next-hop",
        Kind::NextHopSelf => "next-hop-self",
        Kind::Prepend => "prepend",
        Kind::CommunitySet => "community-set",
        Kind::CommunityDelete => "community-delete",
    }
}
