// AS-path patterns of IOS and of Junos: which texts they are, what they find, and what the one is in the other.
use crate::path_items::same_text;
use aspath_text::{
    PatternFault, finds, matches, print_ios, print_junos, read_ios_pattern, read_junos_pattern,
    tokens,
};
use std::alloc::Global;

/// Why a text is no pattern of IOS and why it is none of Junos; None where it is one.
fn faults(alloc: Global, text: &[u8]) -> (Option<PatternFault>, Option<PatternFault>) {
    (
        read_ios_pattern(alloc, text).err(),
        read_junos_pattern(alloc, text).err(),
    )
}

#[test]
fn shapes(rt: HostRuntime) {
    let rows: [(&[u8], bool, bool); 58] = [
        (b"^$", true, false),
        (b".*", true, true),
        (b"_65001_", true, false),
        (b"^65001(_65001)*$", true, false),
        (b"^(1|2)_[3-5][3-5][3-5][3-5]$", true, false),
        (b"^65001_.*_65002$", true, false),
        (b"^$|_7_", true, false),
        (b"^1(_(2|3))?_.*", true, false),
        (b"^(1|[0-9]+)(_(2|3))+(_4)*_.*_(5)$", true, false),
        (b"^1234567890$", true, false),
        (b"^[0-9]$", true, false),
        (b"^[0-9]+$", true, false),
        (b"^[1-35-79]$", true, false),
        (b"65001", false, true),
        (b"5-4", false, false),
        (b"^[3-5]+$", false, false),
        (b"", false, false),
        (b"^", false, false),
        (b"_", false, false),
        (b"$", false, false),
        (b".*_.*", false, false),
        (b"_.*", false, false),
        (b".*_", false, false),
        (b"^65001", false, false),
        (b"^(1|2$", false, false),
        (b"^1__2$", false, false),
        (b"^12345678901$", false, false),
        (b"^[5-3]$", false, false),
        (b"^[]$", false, false),
        (b"^[3-]$", false, false),
        (b"^()$", false, false),
        (b"^(1|)$", false, false),
        (b"^1(_2)$", false, false),
        (b"^1(2)*$", false, false),
        (b"^(_2)*$", false, false),
        (b"^$|", false, false),
        (b"^((1))$", false, false),
        (b" 1", false, false),
        (b"1 ", false, false),
        (b"(1|)", false, false),
        (b"((1))", false, false),
        (b"()*", false, false),
        (b"01", false, false),
        (b"4294967296", false, false),
        (b"4294967295", false, true),
        (b"1{2,1}", false, false),
        (b"1{256}", false, false),
        (b"1{255}", false, true),
        (b"1 *", false, false),
        (b"1|2", false, false),
        (b"()", false, true),
        (b"65001 .+ 65002", false, true),
        (b".* 64512-64519 .*", false, true),
        (b"1? 2", false, true),
        (b"( 1 | 2-3 )* .", false, true),
        (b"1{2} 3{0,4}\t4{5,}", false, true),
        (b"4-5", false, true),
        (b"^65001$", true, false),
    ];
    for (text, ios, junos) in rows {
        let want = (fault(ios), fault(junos));
        assert_eq!(rt; faults(rt.alloc(), text), want, "{text:?}");
    }
}

/// The fault of a text that is none of a shape.
fn fault(shaped: bool) -> Option<PatternFault> {
    if shaped {
        None
    } else {
        Some(PatternFault::NotShaped)
    }
}

/// Whether a pattern of IOS is found in the text of a path: by the search itself, and by its items.
fn answers(alloc: Global, text: &[u8], path: &[u32]) -> Result<(bool, bool), PatternFault> {
    let pattern = read_ios_pattern(alloc, text)?;
    let found = finds(alloc, &pattern, path)?;
    let items = tokens(alloc, &pattern)?;
    let matched = matches(alloc, &items, path)?;
    Ok((found, matched))
}

/// Patterns of IOS, paths in which they are found, and paths in which they are not.
const FOUND: &[(&[u8], &[&[u32]], &[&[u32]])] = &[
    (b"_65001_", &[&[65001], &[7, 65001, 8]], &[&[165001], &[]]),
    (
        b"^65001(_65001)*$",
        &[&[65001], &[65001, 65001, 65001]],
        &[&[65001, 65002]],
    ),
    (b"^(1|2)_[3-5][3-5][3-5][3-5]$", &[&[2, 3454]], &[&[2, 34]]),
    (
        b"^65001_.*_65002$",
        &[&[65001, 3, 65002], &[65001, 3, 4, 65002]],
        &[&[65001, 65002]],
    ),
    (b"^$", &[&[]], &[&[1]]),
    (b".*", &[&[], &[4294967295, 0]], &[]),
    (b"^[0-9]+$", &[&[4294967295]], &[&[], &[1, 2]]),
    (b"^.*_65002$", &[&[65002], &[1, 65002]], &[&[65002, 1]]),
    (b"^1(_(2|3))?_.*", &[&[1, 3], &[1]], &[&[10]]),
    (b"^1(_2)+$", &[&[1, 2]], &[&[1]]),
    (b"^$|_7_", &[&[6, 7], &[]], &[&[6]]),
    (b"^[1-35-79]$", &[&[2], &[9]], &[&[0], &[4], &[8]]),
];

#[test]
fn paths_found(rt: HostRuntime) -> Result<(), PatternFault> {
    for (text, found, others) in FOUND {
        for (paths, want) in [(*found, true), (*others, false)] {
            for path in paths {
                let both = answers(rt.alloc(), text, path)?;
                assert_eq!(rt; both, (want, want), "{text:?} {path:?}");
            }
        }
    }
    Ok(())
}

/// The text for Junos of a pattern of IOS that has one branch.
fn junos_of(alloc: Global, text: &[u8]) -> Result<Option<Vec<u8>>, PatternFault> {
    let pattern = read_ios_pattern(alloc, text)?;
    let items = tokens(alloc, &pattern)?;
    match items.branches.as_slice() {
        [branch] => Ok(print_junos(alloc, branch)?),
        _ => Ok(None),
    }
}

#[test]
fn ios_in_junos(rt: HostRuntime) -> Result<(), PatternFault> {
    let rows: [(&[u8], &[u8]); 8] = [
        (b"^65001_.*_65002$", b"65001 .+ 65002"),
        (b"_6451[2-9]_", b".* 64512-64519 .*"),
        (b"^65001(_65001)*$", b"65001 65001*"),
        (b"^$", b"()"),
        (b".*", b".*"),
        (b"^[0-9]+$", b"."),
        (b"^(1|7|2)(_[3-5])?(_9)+$", b"(1-2|7) 3-5? 9+"),
        (b"^[13][02]$", b"(10|12|30|32)"),
    ];
    for (text, want) in rows {
        let found = junos_of(rt.alloc(), text)?;
        same_text(&rt, found.as_deref(), Some(want));
    }
    Ok(())
}

/// The text for IOS of a pattern of Junos.
fn ios_of(alloc: Global, text: &[u8]) -> Result<Option<Vec<u8>>, PatternFault> {
    let pattern = read_junos_pattern(alloc, text)?;
    Ok(print_ios(alloc, &pattern)?)
}

#[test]
fn junos_in_ios(rt: HostRuntime) -> Result<(), PatternFault> {
    let rows: [(&[u8], &[u8]); 13] = [
        (
            b".* 64512-65534 .*",
            b"_(6451[2-9]|645[2-9][0-9]|64[6-9][0-9][0-9]|65[0-4][0-9][0-9]|655[0-2][0-9]|6553[0-4])_",
        ),
        (b"(7|0-100)", b"^([0-9]|[1-9][0-9]|100)$"),
        (b"7", b"^7$"),
        (b"4294967290-4294967295", b"^429496729[0-5]$"),
        (b"1? 2", b"^1_2$|^2$"),
        (b"65001 .+ 65002", b"^65001_[0-9]+(_[0-9]+)*_65002$"),
        (b"()", b"^$"),
        (b".*", b".*"),
        (b".", b"^[0-9]+$"),
        (b"1{2,3} 4*", b"^1_1(_1)?(_4)*$"),
        (b"(1|3-5) 7{2,}", b"^(1|[3-5])_7_7(_7)*$"),
        (b"1* 2?", b"^1(_1)*(_2)?$|^2$|^$"),
        (b".* 1? 2", b"^[0-9]+(_[0-9]+)*(_1)?_2$|^1_2$|^2$"),
    ];
    for (text, want) in rows {
        let found = ios_of(rt.alloc(), text)?;
        same_text(&rt, found.as_deref(), Some(want));
    }
    Ok(())
}

/// The text for IOS of a pattern of IOS, once as items.
fn ios_again(alloc: Global, text: &[u8]) -> Result<Option<Vec<u8>>, PatternFault> {
    let pattern = read_ios_pattern(alloc, text)?;
    let items = tokens(alloc, &pattern)?;
    Ok(print_ios(alloc, &items)?)
}

#[test]
fn ios_as_it_was(rt: HostRuntime) -> Result<(), PatternFault> {
    for text in [
        b"_65001_".as_slice(),
        b"^65001(_65001)*$",
        b"^$|_7_",
        b"^1_2(_3)?$",
    ] {
        let found = ios_again(rt.alloc(), text)?;
        same_text(&rt, found.as_deref(), Some(text));
    }
    Ok(())
}

/// Patterns whose words make very many ranges, a path in which they are found, and one in which they are not.
const HOSTILE: &[(&[u8], &[u32], &[u32])] = &[
    (
        b"^[13579][13579][13579][13579][13579][13579][13579][13579][13579][13579]$",
        &[1357913579],
        &[1357913578],
    ),
    (
        b"_[0-9][0-9][0-9][0-9][0-9][0-9][0-9][0-9][0-9][02468]_",
        &[7, 4294967294],
        &[4294967295, 7],
    ),
];

#[test]
fn patterns_of_too_many_ranges(rt: HostRuntime) -> Result<(), PatternFault> {
    for (text, found, lost) in HOSTILE {
        let pattern = read_ios_pattern(rt.alloc(), text)?;
        assert!(rt; tokens(rt.alloc(), &pattern).is_err(), "{text:?}");
        assert!(rt; finds(rt.alloc(), &pattern, found)?, "{text:?}");
        assert!(rt; !finds(rt.alloc(), &pattern, lost)?, "{text:?}");
    }
    Ok(())
}

#[test]
fn equal_sets_have_one_form(rt: HostRuntime) -> Result<(), PatternFault> {
    let rows: [(&[u8], &[u8]); 2] = [
        (b"^(7|12|[5-9])$", b"^([5-9]|12)$"),
        (b"_([13]|[24])_", b"_[1-4]_"),
    ];
    for (text, other) in rows {
        let first = tokens(rt.alloc(), &read_ios_pattern(rt.alloc(), text)?)?;
        let second = tokens(rt.alloc(), &read_ios_pattern(rt.alloc(), other)?)?;
        assert!(rt; first == second, "{text:?}");
    }
    Ok(())
}
