// Items over the numbers of a path: which paths they match, and their texts for IOS and for Junos.
use aspath_text::{
    NumberRange, NumberSet, TokenBranch, TokenItem, TokenPattern, matches, print_ios, print_junos,
};
use route_types::{Memory, Row};
use std::alloc::Global;
use std::process::Abort;

/// Both are no text, or one and the same.
pub fn same_text(rt: &impl Abort, found: Option<&[u8]>, want: Option<&[u8]>) {
    assert_eq!(rt; found, want);
}

/// The ranges of an item's numbers, and how many of them it takes: at least, and at most.
type Part = (&'static [(u32, u32)], u32, Option<u32>);

/// Items in order.
type Parts = &'static [Part];

fn item(alloc: Global, part: &Part) -> Result<TokenItem, Memory> {
    let mut ranges = Row::new(alloc);
    for (least, most) in part.0 {
        ranges.push(NumberRange {
            least: *least,
            most: *most,
        })?;
    }
    Ok(TokenItem {
        set: NumberSet { ranges },
        least: part.1,
        most: part.2,
    })
}

fn branch(alloc: Global, parts: Parts) -> Result<TokenBranch, Memory> {
    let mut items = Row::new(alloc);
    for part in parts {
        items.push(item(alloc, part)?)?;
    }
    Ok(TokenBranch { items })
}

fn pattern(alloc: Global, rows: &[Parts]) -> Result<TokenPattern, Memory> {
    let mut branches = Row::new(alloc);
    for parts in rows {
        branches.push(branch(alloc, parts)?)?;
    }
    Ok(TokenPattern { branches })
}

const ALL: &[(u32, u32)] = &[(0, 4294967295)];

const ANY: Part = (ALL, 0, None);

/// Twenty free items.
const FREE: Parts = &[ANY; 20];

const ONE: Part = (&[(1, 1)], 1, Some(1));

const ONE_OR_NONE: Part = (&[(1, 1)], 0, Some(1));

const TWO: Part = (&[(2, 2)], 1, Some(1));

const SEVEN: &[(u32, u32)] = &[(7, 7)];

const SEVENS: Part = (&[(7, 7)], 2, Some(3));

/// Items, paths that they match, and paths that they do not.
const MATCHED: &[(Parts, &[&[u32]], &[&[u32]])] = &[
    (&[], &[&[]], &[&[1]]),
    (&[ONE, TWO], &[&[1, 2]], &[&[2, 1], &[1], &[1, 2, 2]]),
    (
        &[SEVENS],
        &[&[7, 7], &[7, 7, 7]],
        &[&[7], &[7, 7, 7, 7], &[7, 6, 7]],
    ),
    (
        &[SEVENS, SEVENS],
        &[&[7, 7, 7, 7]],
        &[&[7, 7, 7, 7, 7, 7, 7]],
    ),
    (&[ANY, ONE, ANY], &[&[5, 1, 6], &[1]], &[&[5, 6]]),
    (&[ANY], &[&[], &[4294967295, 0]], &[]),
    (&[ONE_OR_NONE, ONE], &[&[1], &[1, 1]], &[&[1, 1, 1], &[]]),
    (&[(ALL, 2, Some(1))], &[], &[&[1, 1]]),
    (&[(ALL, 4294967295, None)], &[], &[&[1, 1]]),
    (&[ANY, SEVENS, TWO], &[&[7, 7, 7, 7, 2]], &[&[7, 2]]),
];

#[test]
fn paths_matched(rt: HostRuntime) -> Result<(), Memory> {
    for (parts, taken, refused) in MATCHED {
        let built = pattern(rt.alloc(), &[*parts])?;
        for (paths, want) in [(*taken, true), (*refused, false)] {
            for path in paths {
                let found = matches(rt.alloc(), &built, path)?;
                assert_eq!(rt; found, want, "{path:?}");
            }
        }
    }
    Ok(())
}

#[test]
fn many_free_items_match_a_long_path(rt: HostRuntime) -> Result<(), Memory> {
    let path = vec![in rt.alloc(); 5u32; 2000]?;
    let built = pattern(rt.alloc(), &[FREE])?;
    assert!(rt; matches(rt.alloc(), &built, path.as_slice())?);
    Ok(())
}

/// Branches of items, and their text for IOS where they have one.
const IOS_TEXTS: &[(&[Parts], Option<&[u8]>)] = &[
    (
        &[&[
            (&[(65001, 65001)], 1, Some(1)),
            (ALL, 1, None),
            (&[(65002, 65002)], 1, Some(1)),
        ]],
        Some(b"^65001_[0-9]+(_[0-9]+)*_65002$"),
    ),
    (&[&[ONE_OR_NONE, TWO]], Some(b"^1_2$|^2$")),
    (&[&[]], Some(b"^$")),
    (&[&[ANY]], Some(b".*")),
    (
        &[&[ANY, ONE_OR_NONE, TWO]],
        Some(b"^[0-9]+(_[0-9]+)*(_1)?_2$|^1_2$|^2$"),
    ),
    (&[&[(&[(1, 1)], 2, None)]], Some(b"^1_1(_1)*$")),
    (
        &[&[ANY, ANY]],
        Some(b"^[0-9]+(_[0-9]+)*_|^[0-9]+(_[0-9]+)*$|^$"),
    ),
    (&[&[TWO, ANY]], Some(b"^2_")),
    (&[&[TWO, ONE_OR_NONE, ANY]], Some(b"^2(_1)?(_[0-9]+)*$")),
    (&[&[(&[(1, 1)], 0, Some(2))]], Some(b"^1(_1)?$|^$")),
    (&[&[(&[(3, 5), (1, 1)], 1, Some(1))]], Some(b"^(1|[3-5])$")),
    (&[&[(&[(0, 9)], 1, Some(1))]], Some(b"^[0-9]$")),
    (&[&[(&[(1, 1)], 0, Some(0)), TWO]], Some(b"^2$")),
    (&[&[(&[], 0, None), TWO]], Some(b"^2$")),
    (&[&[(&[(1, 1)], 3, Some(2))]], None),
    (&[&[(&[(2, 1)], 1, None)]], None),
    (&[&[TWO, (&[(1, 1)], 1, Some(0))]], None),
    (&[], None),
    (
        &[&[(&[(1, 1)], 2, Some(1))], &[(&[(1, 1)], 1, Some(0))]],
        None,
    ),
    (
        &[
            &[TWO],
            &[(&[(1, 1)], 2, Some(1))],
            &[(&[(3, 3)], 0, Some(0))],
            &[ONE_OR_NONE],
        ],
        Some(b"^2$|^$|^1$|^$"),
    ),
];

#[test]
fn printed_for_ios(rt: HostRuntime) -> Result<(), Memory> {
    for (branches, want) in IOS_TEXTS {
        let built = pattern(rt.alloc(), branches)?;
        let text = print_ios(rt.alloc(), &built)?;
        same_text(&rt, text.as_deref(), *want);
    }
    Ok(())
}

/// Items, and their text for Junos where they have one.
const JUNOS_TEXTS: &[(Parts, Option<&[u8]>)] = &[
    (&[(SEVEN, 1, Some(1))], Some(b"7")),
    (&[(SEVEN, 0, None)], Some(b"7*")),
    (&[(SEVEN, 1, None)], Some(b"7+")),
    (&[(SEVEN, 0, Some(1))], Some(b"7?")),
    (&[(SEVEN, 2, Some(2))], Some(b"7{2}")),
    (&[(SEVEN, 2, None)], Some(b"7{2,}")),
    (&[(SEVEN, 2, Some(3))], Some(b"7{2,3}")),
    (&[(SEVEN, 300, Some(300))], Some(b"7{255} 7{45}")),
    (&[(SEVEN, 0, Some(300))], Some(b"7{0,255} 7{0,45}")),
    (&[(SEVEN, 511, None)], Some(b"7{255} 7{255} 7+")),
    (
        &[(SEVEN, 257, Some(1000))],
        Some(b"7{255} 7{2,255} 7{0,255} 7{0,235}"),
    ),
    (&[(SEVEN, 0, Some(0))], Some(b"()")),
    (&[(SEVEN, 3, Some(2))], None),
    (&[(&[(1, 1), (3, 5)], 1, Some(1))], Some(b"(1|3-5)")),
    (
        &[(
            &[(30, 39), (7, 3), (1, 5), (4, 9), (10, 10), (12, 12)],
            1,
            Some(1),
        )],
        Some(b"(1-10|12|30-39)"),
    ),
    (&[(&[(10, 4294967295), (0, 9)], 1, Some(1))], Some(b".")),
    (&[(&[(0, 4294967294)], 1, Some(1))], Some(b"0-4294967294")),
    (&[(&[(2, 1)], 1, Some(1))], None),
    (&[], Some(b"()")),
    (&[ONE, (&[], 0, None), (ALL, 1, None), TWO], Some(b"1 .+ 2")),
];

#[test]
fn printed_for_junos(rt: HostRuntime) -> Result<(), Memory> {
    for (parts, want) in JUNOS_TEXTS {
        let built = branch(rt.alloc(), parts)?;
        let text = print_junos(rt.alloc(), &built)?;
        same_text(&rt, text.as_deref(), *want);
    }
    Ok(())
}
