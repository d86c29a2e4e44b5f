// Classes of paths: how many patterns have, and that the class of a path answers as each pattern does on it.
use aspath_text::{PatternFault, TokenPattern, matches, read_ios_pattern, tokens};
use path_classes::Classes;
use route_types::{Memory, Row};
use std::alloc::Global;
use std::process::Abort;
use std::test::Fail;

/// The items of patterns of IOS.
fn patterns(alloc: Global, texts: &[&[u8]]) -> Result<Row<TokenPattern>, PatternFault> {
    let mut found = Row::new(alloc);
    for text in texts {
        found.push(tokens(alloc, &read_ios_pattern(alloc, text)?)?)?;
    }
    Ok(found)
}

/// The class of the path answers as each pattern does on it.
fn answers_as_patterns(
    rt: &impl Abort,
    alloc: Global,
    classes: &Classes,
    patterns: &[TokenPattern],
    path: &[u32],
) -> Result<(), Memory> {
    let class = classes.class_of(path);
    assert!(rt; class < classes.count(), "{path:?}");
    for (place, pattern) in patterns.iter().enumerate() {
        let want = matches(alloc, pattern, path)?;
        assert_eq!(rt; classes.answer(class, place), want, "{place} on {path:?}");
    }
    Ok(())
}

/// Patterns, how many classes they have, and some paths.
const SORTED: &[(&[&[u8]], usize, &[&[u32]])] = &[
    (&[], 1, &[&[], &[7]]),
    (&[b".*"], 1, &[&[], &[4294967295]]),
    (&[b"_1_", b"^$"], 3, &[&[1], &[], &[2]]),
    (&[b"_1_", b"^1_"], 3, &[&[1], &[2, 1], &[2]]),
    (&[b"_1_", b"_1_"], 2, &[&[1], &[2]]),
    (
        &[b"^1_", b"^2_", b"_3$"],
        6,
        &[&[1], &[2], &[3], &[1, 3], &[2, 3], &[], &[4]],
    ),
    (&[b"^1(_1)*$"], 2, &[&[1, 1, 1], &[1, 2], &[]]),
    (&[b"_[2-3]_"], 2, &[&[1], &[2], &[3], &[4]]),
    (&[b"_4294967295_"], 2, &[&[4294967294], &[4294967295]]),
    (&[b"_1_|_2_|_3_|_4_"], 2, &[&[1], &[4], &[5]]),
    (
        &[b"_1_", b"_2_", b"_3_", b"_4_"],
        16,
        &[&[1, 3], &[4, 2, 1]],
    ),
];

#[test]
fn paths_sorted(rt: HostRuntime) -> Result<(), Fail> {
    let alloc = rt.alloc();
    for (texts, count, paths) in SORTED {
        let read = patterns(alloc, texts)?;
        let classes = Classes::new(alloc, read.as_slice())?;
        assert_eq!(rt; classes.count(), *count, "{texts:?}");
        for path in *paths {
            answers_as_patterns(&rt, alloc, &classes, read.as_slice(), path)?;
        }
    }
    Ok(())
}

#[test]
fn members_are_of_their_classes(rt: HostRuntime) -> Result<(), Fail> {
    let alloc = rt.alloc();
    for (texts, _, _) in SORTED {
        let read = patterns(alloc, texts)?;
        let classes = Classes::new(alloc, read.as_slice())?;
        for class in 0..classes.count() {
            let path = classes.member(class);
            assert_eq!(rt; classes.class_of(path), class);
            answers_as_patterns(&rt, alloc, &classes, read.as_slice(), path)?;
        }
    }
    Ok(())
}
