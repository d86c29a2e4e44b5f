// The cut of RPL texts: each statement with its depth, its place, its words and the comma that ends it.
use crate::statements::{lists, places};
use std::test::Fail;
use text_words::rpl_statements;

const POLICY: &str = "\
! a comment
hostname r1
prefix-set P
  10.0.0.0/8 le 24,
  # 172.16.0.0/12,
  192.0.2.0/24
end-set
!
route-policy A($x)
  if destination in P and not as-path in (ios-regex '^1 2$') then
    set local-preference $x
    pass
  elseif med eq 5 then
    drop
  else
    apply B(1,
      P) done
  endif
end-policy
!
";

#[test]
fn cuts(rt: HostRuntime) -> Result<(), Fail> {
    for (text, want) in [
        // A set, a policy, and lines that are neither.
        (
            POLICY,
            "\
0 12-23 hostname r1
0 24-36 prefix-set P
1 39-55 10.0.0.0/8 le 24 ,
1 78-90 192.0.2.0/24
0 91-98 end-set
0 101-119 route-policy A ( $x )
1 122-185 if destination in P and not as-path in ( ios-regex '^1 2$' ) then
1 190-213 set local-preference $x
1 218-222 pass
1 225-245 elseif med eq 5 then
1 250-254 drop
1 257-261 else
1 266-285 apply B ( 1 , P )
1 286-290 done
1 293-298 endif
0 299-309 end-policy
",
        ),
        // Text that says nothing.
        ("", ""),
        (
            "\
!a
 \t# b\r

",
            "",
        ),
        // A line is dropped by its first byte that is no blank; no other byte does that, nor does a quoted word.
        (
            "\
a ! b
'#' c
  !d
",
            "\
0 0-5 a ! b
0 6-11 '#' c
",
        ),
        // Parentheses and commas are words of their own.
        ("a(b,c)d ,\n", "0 0-9 a ( b , c ) d ,\n"),
        // A quoted word goes to the next quote of its line, and there marks and blanks stand for themselves.
        (
            "\
re'a b'c '(,'
''d'!'
",
            "\
0 0-13 re 'a b' c '(,'
0 14-20 '' d '!'
",
        ),
        // A quote without another in its line is a byte of a word.
        (
            "\
don't x
'a
b'
c'd'e'f
'''
",
            "\
0 0-7 don't x
0 8-10 'a
0 11-13 b'
0 14-21 c 'd' e'f
0 22-25 '' '
",
        ),
        // A CR right before an LF is dropped; any other is a byte of a word, of two before an LF the first.
        (
            "a\r\nb\rc\r\r\nd\r",
            "\
0 0-1 a
0 3-7 b\rc\r
0 9-11 d\r
",
        ),
        // Form feed and bytes above 127 are bytes of words.
        ("a\x0cb é\n", "0 0-6 a\x0cb é\n"),
        // What stands between commas is an element, over several lines too; a set without words has none.
        (
            "\
community-set C
1:1,2:2
  le
3,4:4
end-set
as-path-set D
end-set
",
            "\
0 0-15 community-set C
1 16-19 1:1 ,
1 20-30 2:2 le 3 ,
1 31-34 4:4
0 35-42 end-set
0 43-56 as-path-set D
0 57-64 end-set
",
        ),
        // An element without words stands at the comma that ends it, and the last one at the comma before it.
        (
            "\
prefix-set S
,a,,
b,end-set
",
            "\
0 0-12 prefix-set S
1 13-14 ,
1 14-15 a ,
1 16-17 ,
1 18-19 b ,
1 19-20
0 20-27 end-set
",
        ),
        (
            "\
prefix-set S
,
end-set
",
            "\
0 0-12 prefix-set S
1 13-14 ,
1 13-14
0 15-22 end-set
",
        ),
        // A quoted comma is none, nor does a quoted word end a set.
        (
            "\
as-path-set S
a ',' b, 'end-set'
end-set
",
            "\
0 0-13 as-path-set S
1 14-21 a ',' b ,
1 23-32 'end-set'
0 33-40 end-set
",
        ),
        // The words at which statements of a policy start are plain words in a set, and so is what ends a policy.
        (
            "\
prefix-set S
if a, then pass end-policy
end-set
",
            "\
0 0-12 prefix-set S
1 13-17 if a ,
1 19-39 then pass end-policy
0 40-47 end-set
",
        ),
        // What follows the end of a block in its line is a line of its own, which may open a block.
        (
            "\
prefix-set S
a end-set b c
d
route-policy P
end-policy prefix-set T
e end-set
",
            "\
0 0-12 prefix-set S
1 13-14 a
0 15-22 end-set
0 23-26 b c
0 27-28 d
0 29-43 route-policy P
0 44-54 end-policy
0 55-67 prefix-set T
1 68-69 e
0 70-77 end-set
",
        ),
        // A header is its line with all its words.
        (
            "\
prefix-set S end-set
end-set
route-policy pass end-policy
end-policy
",
            "\
0 0-20 prefix-set S end-set
0 21-28 end-set
0 29-57 route-policy pass end-policy
0 58-68 end-policy
",
        ),
        // An indented line opens a block too; one with the keyword in another place or in quotes does not.
        (
            " prefix-set S\na\nend-set\nno prefix-set S\n'prefix-set' S\n",
            "\
0 1-13 prefix-set S
1 14-15 a
0 16-23 end-set
0 24-39 no prefix-set S
0 40-54 'prefix-set' S
",
        ),
        // Each of eleven words starts a statement, and so does the first word.
        (
            "\
route-policy P
a b pass c done drop set d delete e
prepend
f apply g elseif h then endif i else j
end-policy
",
            "\
0 0-14 route-policy P
1 15-18 a b
1 19-25 pass c
1 26-30 done
1 31-35 drop
1 36-41 set d
1 42-50 delete e
1 51-60 prepend f
1 61-68 apply g
1 69-82 elseif h then
1 83-88 endif
1 89-90 i
1 91-95 else
1 96-97 j
0 98-108 end-policy
",
        ),
        // A statement starts behind `then`, `else` and `endif`.
        (
            "\
route-policy P
if a then b then c else d endif e
end-policy
",
            "\
0 0-14 route-policy P
1 15-24 if a then
1 25-31 b then
1 32-33 c
1 34-38 else
1 39-40 d
1 41-46 endif
1 47-48 e
0 49-59 end-policy
",
        ),
        // From `if` or `elseif` to the next `then` nothing starts.
        (
            "\
route-policy P
if if else pass endif elseif x then elseif set
if then y
end-policy
",
            "\
0 0-14 route-policy P
1 15-50 if if else pass endif elseif x then
1 51-69 elseif set if then
1 70-71 y
0 72-82 end-policy
",
        ),
        // Without a `then` such a statement goes on to the end of the policy.
        (
            "\
route-policy P
pass if a
set med 1 drop end-set
end-policy pass
",
            "\
0 0-14 route-policy P
1 15-19 pass
1 20-47 if a set med 1 drop end-set
0 48-58 end-policy
0 59-63 pass
",
        ),
        // A quoted word starts no statement and ends none.
        (
            "\
route-policy P
if 'then' a then b 'pass' 'end-policy' 'else' c
end-policy
",
            "\
0 0-14 route-policy P
1 15-31 if 'then' a then
1 32-62 b 'pass' 'end-policy' 'else' c
0 63-73 end-policy
",
        ),
        // A block may stay open at the end of the text.
        (
            "route-policy P\n  if a then\n    pass b",
            "\
0 0-14 route-policy P
1 17-26 if a then
1 31-37 pass b
",
        ),
        (
            "\
prefix-set S
a,
b
",
            "\
0 0-12 prefix-set S
1 13-14 a ,
1 16-17 b
",
        ),
        ("route-policy P", "0 0-14 route-policy P\n"),
    ] {
        let cut = rpl_statements(rt.alloc(), text.as_bytes())?;
        lists(&rt, cut.as_slice(), want)?;
    }
    let cut = rpl_statements(rt.alloc(), POLICY.as_bytes())?;
    let want = "\
2 12-20 21-23
2 24-34 35-36
3 39-49 50-52 53-55
1 78-90
1 91-98
5 101-113 114-115 115-116 116-118 118-119
13 122-124 125-136 137-139 140-141 142-145 146-149 150-157 158-160 161-162 162-171 172-179 179-180 181-185
3 190-193 194-210 211-213
1 218-222
5 225-231 232-235 236-238 239-240 241-245
1 250-254
1 257-261
7 266-271 272-273 273-274 274-275 275-276 283-284 284-285
1 286-290
1 293-298
1 299-309
";
    places(&rt, cut.as_slice(), want)
}
