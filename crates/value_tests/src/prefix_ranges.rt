// Prefixes of the other family, which no text of a policy names yet, beside those of the first.
use prefix_sets::PrefixRange;
use route_types::{Address, Family, Prefix};

#[test]
fn other_family(rt: HostRuntime) {
    let five = Address {
        family: Family::V6,
        bits: 5,
    };
    let all = Prefix::new(five, 0);
    let range = PrefixRange::new(all, 0, 128);
    let deep = Prefix::new(five, 128);
    let first = Address {
        family: Family::V4,
        bits: 5,
    };
    let other = Prefix::new(first, 32);
    let within = all.contains(&deep) && range.holds(&deep);
    let beside = all.contains(&other) || range.holds(&other);
    assert!(rt; all.address().bits == 0 && within && !beside);
}
