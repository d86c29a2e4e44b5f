// The cut of Junos texts: each statement with its depth, its place, its words and the sign that ends it, and each
// first fault with its place and kind.
use crate::statements::{lists, places};
use std::test::Fail;
use text_words::{BrokenKind, Span, TextFault, junos_statements};

const POLICY: &str = "\
policy-options {
    /* a { b; */
    prefix-list N { 10.0.0.0/8; 192.0.2.1; }
    as-path A \"65001 .+\"; # c ;
    community T members [ 65001:1 65001:* ];
    policy-statement P {
        term t {
            from as-path A;
            then { community add T; accept; }
        }
        then reject;
    }
}
";

#[test]
fn cuts(rt: HostRuntime) -> Result<(), Fail> {
    for (text, want) in [
        // A policy with what it names, and two comments.
        (
            POLICY,
            "\
0 0-14 policy-options {
1 38-51 prefix-list N {
2 54-64 10.0.0.0/8 ;
2 66-75 192.0.2.1 ;
2 77-78 }
1 83-103 as-path A '65001 .+' ;
1 115-154 community T members [ 65001:1 65001:* ] ;
1 160-178 policy-statement P {
2 189-195 term t {
3 210-224 from as-path A ;
3 238-242 then {
4 245-260 community add T ;
4 262-268 accept ;
4 270-271 }
3 280-281 }
2 290-301 then reject ;
2 307-308 }
1 309-310 }
",
        ),
        // Text that says nothing.
        ("", ""),
        (" \t\r\n/* a; */ # b {", ""),
        // No blanks are needed beside `;`, `{` and `}`, and a block that closes counts among those open.
        (
            "a{b{c;}}d;\n",
            "\
0 0-1 a {
1 2-3 b {
2 4-5 c ;
2 6-7 }
1 7-8 }
0 8-9 d ;
",
        ),
        // A statement without words stands where the byte is that ends it.
        (
            ";{ {} }\n",
            "\
0 0-1 ;
0 1-2 {
1 3-4 {
2 4-5 }
1 6-7 }
",
        ),
        // Brackets are words of their own.
        ("m[1 2]n[] ;", "0 0-9 m [ 1 2 ] n [ ] ;\n"),
        // Comments and quotes end a word.
        (
            "\
re/* */ject;
a\"b\"c#d
e;
",
            "\
0 0-11 re ject ;
0 13-22 a 'b' c e ;
",
        ),
        // A comment opens with two bytes, and `/*/` only opens; behind stars it still closes.
        (
            "/*/ a; **/b;/**/c;",
            "\
0 10-11 b ;
0 16-17 c ;
",
        ),
        // Within a comment there are no quotes and no comments, and within quotes no comments, marks and escapes.
        (
            "\
/* \" # */ a \"/* # [;{}\" ;# \" /*
b \"\\\";c \"\";
",
            "\
0 10-23 a '/* # [;{}' ;
0 32-37 b '\\' ;
0 38-42 c '' ;
",
        ),
        // A slash, a star and `*/` by themselves are bytes of words.
        ("1/8 * */ / //;", "0 0-13 1/8 * */ / // ;\n"),
        // Form feed and bytes above 127 are bytes of words.
        ("a\x0cb é;", "0 0-6 a\x0cb é ;\n"),
        // An LF may stand in quotes, and a CR right before one is dropped, there too.
        (
            "\
a\r
b \"c\r
d\";\r
e;\r
",
            "\
0 0-11 a b 'c
d' ;
0 14-15 e ;
",
        ),
        // Any other CR is a byte of a word, of two before an LF the first.
        ("a\rb c\r\r\n\"d\r\";", "0 0-12 a\rb c\r 'd\r' ;\n"),
    ] {
        let cut = junos_statements(rt.alloc(), text.as_bytes())?;
        lists(&rt, cut.as_slice(), want)?;
    }
    let cut = junos_statements(rt.alloc(), POLICY.as_bytes())?;
    let want = "\
1 0-14
2 38-49 50-51
1 54-64
1 66-75
0
3 83-90 91-92 93-103
7 115-124 125-126 127-134 135-136 137-144 145-152 153-154
2 160-176 177-178
2 189-193 194-195
3 210-214 215-222 223-224
1 238-242
3 245-254 255-258 259-260
1 262-268
0
0
2 290-294 295-301
0
0
";
    places(&rt, cut.as_slice(), want)
}

#[test]
fn faults(rt: HostRuntime) -> Result<(), Fail> {
    for (text, start, end, kind) in [
        ("a;}b", 2, 3, BrokenKind::StrayBrace),
        ("}\"", 0, 1, BrokenKind::StrayBrace),
        ("a{}}", 3, 4, BrokenKind::StrayBrace),
        ("a{b c}", 2, 5, BrokenKind::NoEnder),
        ("a }", 0, 1, BrokenKind::NoEnder),
        ("a{\"b\" }", 2, 5, BrokenKind::NoEnder),
        ("a{b} \"", 2, 3, BrokenKind::NoEnder),
        ("a; b c", 3, 6, BrokenKind::NoEnder),
        ("a{} b", 4, 5, BrokenKind::NoEnder),
        ("a{b", 2, 3, BrokenKind::NoEnder),
        ("a;\r", 2, 3, BrokenKind::NoEnder),
        ("a b /* ; */ # ;", 0, 3, BrokenKind::NoEnder),
        ("a{", 0, 1, BrokenKind::OpenBrace),
        ("a{b c{d{}", 2, 5, BrokenKind::OpenBrace),
        ("a;{", 2, 3, BrokenKind::OpenBrace),
        ("a b{ # }", 0, 3, BrokenKind::OpenBrace),
        ("a{\n b{\n }\n", 0, 1, BrokenKind::OpenBrace),
        ("a; \"b;\n", 3, 4, BrokenKind::OpenQuote),
        ("a{b\"", 3, 4, BrokenKind::OpenQuote),
        ("\"a\" \"/*", 4, 5, BrokenKind::OpenQuote),
        ("a; /*/", 3, 5, BrokenKind::OpenComment),
        ("a{b/*", 3, 5, BrokenKind::OpenComment),
        ("/* *", 0, 2, BrokenKind::OpenComment),
        ("a /* \"", 2, 4, BrokenKind::OpenComment),
    ] {
        let want = TextFault::Broken {
            span: Span { start, end },
            kind,
        };
        let fault = junos_statements(rt.alloc(), text.as_bytes()).err();
        assert_eq!(rt; fault, Some(want), "{text}");
    }
    Ok(())
}
