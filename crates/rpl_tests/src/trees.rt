// What RPL texts read as: each item with its place, what it says, the name that it stands under, in parentheses
// where it is a first line of no form, and the places of its tests.
use crate::shown::reads;
use std::test::Fail;

#[test]
fn sets(rt: HostRuntime) -> Result<(), Fail> {
    for (text, want) in [
        // Elements, with comments between them; what stands outside blocks is dropped.
        (
            "\
hostname r1
prefix-set S
  10.0.0.0/8 le 24,
  # 172.16.0.0/12,
  ! and one more
  192.0.2.0/24
end-set and more
end-set
",
            "\
2:1-2:13 prefix-set S
3:3-3:19 element
6:3-6:15 element
7:1-7:8 end
",
        ),
        // A list that ends in a comma has an empty last element, at that comma; one without words has none.
        (
            "community-set C\n 1:1,\nend-set\nas-path-set D\nend-set\n",
            "\
1:1-1:16 community-set C
2:2-2:5 element
2:5-2:6 other
3:1-3:8 end
4:1-4:14 as-path-set D
5:1-5:8 end
",
        ),
        // A quoted `end-set` ends no set; a quote without its partner is a byte of a word.
        (
            "\
as-path-set A
  ios-regex '^1$',
  ios-regex 'end-set',
  ios-regex '^1$
end-set
",
            "\
1:1-1:14 as-path-set A
2:3-2:18 element
3:3-3:22 other
4:3-4:17 other
5:1-5:8 end
",
        ),
        // A first line of no form stands under its second word, if it has one; its elements are read.
        (
            "\
prefix-set S T
10.0.0.0/8
end-set
community-set
1:1
end-set
prefix-set $S
end-set
",
            "\
1:1-1:15 prefix-set (S)
2:1-2:11 element
3:1-3:8 end
4:1-4:14 community-set
5:1-5:4 element
6:1-6:8 end
7:1-7:14 prefix-set ($S)
8:1-8:8 end
",
        ),
        // An element of one sort is none of another.
        (
            "prefix-set S\n1:1, 10.0.0.0/8 ge 7\nend-set\n",
            "\
1:1-1:13 prefix-set S
2:1-2:4 other
2:6-2:21 other
3:1-3:8 end
",
        ),
    ] {
        reads(&rt, text, want)?;
    }
    Ok(())
}

#[test]
fn policies(rt: HostRuntime) -> Result<(), Fail> {
    for (text, want) in [
        // A policy may be named as a statement starts.
        (
            "route-policy pass\nend-policy\n",
            "\
1:1-1:18 route-policy pass
2:1-2:11 end
",
        ),
        // The places of the tests of a condition, over two lines.
        (
            "\
route-policy P($a)
  if destination in S and not (med eq $a
    or origin is igp) then
    set med 5 pass
  elseif community matches-any (1:1, 2:2) then
    apply Q(1, S)
  else
    prepend as-path 65001 3 done
  endif
  drop
end-policy
",
            "\
1:1-1:19 route-policy P
2:3-3:27 if 2:6-2:22 2:32-2:41 3:8-3:21
4:5-4:14 action
4:15-4:19 pass
5:3-5:47 elseif 5:10-5:42
6:5-6:18 apply
7:3-7:7 else
8:5-8:28 action
8:29-8:33 done
9:3-9:8 endif
10:3-10:7 drop
11:1-11:11 end
",
        ),
        // Statements of no form; those that begin so still open an `if`.
        (
            "\
route-policy P
  frobnicate
  if then
    set med 4294967296
  elseif then
  else
    pass twice
  endif
end-policy
",
            "\
1:1-1:15 route-policy P
2:3-2:13 other
3:3-3:10 other if
4:5-4:23 other
5:3-5:14 other elseif
6:3-6:7 else
7:5-7:15 other
8:3-8:8 endif
9:1-9:11 end
",
        ),
        // A first line of no form; its statements are read.
        (
            "route-policy P($a, b)\ndone\nend-policy\nroute-policy\nend-policy\n",
            "\
1:1-1:22 route-policy (P)
2:1-2:5 done
3:1-3:11 end
4:1-4:13 route-policy
5:1-5:11 end
",
        ),
    ] {
        reads(&rt, text, want)?;
    }
    Ok(())
}
