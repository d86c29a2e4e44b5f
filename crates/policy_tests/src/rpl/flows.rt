// How a policy runs: tests on the arriving route, the ticket, parameters, sets without elements.
use crate::named::Named;
use crate::policies::Verdict::{Accept, Reject};

/// A policy with a parameter, and one that applies it.
const APPLIES: &str = "\
route-policy SETLP($x)
  set local-preference $x
  done
end-policy
route-policy P
  apply SETLP(300)
  drop
end-policy
";

/// A policy with a parameter, one that hands on its own, and one that applies both with several words.
const APPLIES_AGAIN: &str = "\
route-policy SETW($w)
  set weight $w
end-policy
route-policy HANDS($x)
  apply SETW($x)
  prepend as-path $x 2
end-policy
route-policy P
  apply SETW(3)
  apply HANDS(4)
  apply HANDS(5)
  apply SETW(4)
  apply HANDS(4)
  if med ge 1 then
    apply SETW(3)
  endif
end-policy
";

/// Two policies that test a set without elements.
const EMPTY_SET: &str = "\
community-set NONE
end-set
route-policy EVERY
  if community matches-every NONE then
    pass
  endif
end-policy
route-policy ANY
  if community matches-any NONE then
    pass
  endif
end-policy
";

/// What a translation writes.
const WRITTEN: &str = "\
prefix-set IN-X-p1
  10.0.0.0/8 le 24
end-set
!
route-policy IN-X
  if destination in IN-X-p1 then
    set local-preference 200
    done
  endif
  drop
end-policy
!
";

pub const POLICIES: &[Named] = &[
    // A test reads the MED that came.
    (
        "P",
        "\
route-policy P
  set med 50
  if med eq 50 then
    drop
  endif
end-policy
",
        &[(&["med 10"], Accept(&["med 50"])), (&["med 50"], Reject)],
    ),
    // `done` of an applied policy accepts.
    (
        "P",
        APPLIES,
        &[
            (&[], Accept(&["local-preference 300"])),
            (
                &["route 0.0.0.0/0", "med 7"],
                Accept(&["local-preference 300"]),
            ),
        ],
    ),
    // Each `apply` hands on its own words, also where the policy was applied before.
    (
        "P",
        APPLIES_AGAIN,
        &[
            (
                &["as-path 7"],
                Accept(&["weight 4", "as-path 4 4 5 5 4 4 7"]),
            ),
            (
                &["as-path 7", "med 1"],
                Accept(&["weight 3", "as-path 4 4 5 5 4 4 7"]),
            ),
        ],
    ),
    // Every element of none is matched, and no one of them.
    (
        "EVERY",
        EMPTY_SET,
        &[(&[], Accept(&[])), (&["communities 1:1"], Accept(&[]))],
    ),
    (
        "ANY",
        EMPTY_SET,
        &[(&[], Reject), (&["communities 1:1"], Reject)],
    ),
    // At the end the ticket decides, which `pass` gives and no statement takes back.
    (
        "P",
        "route-policy P\n  pass\nend-policy\n",
        &[(&[], Accept(&[])), (&["med 7", "weight 3"], Accept(&[]))],
    ),
    ("P", "route-policy P\nend-policy\n", &[(&[], Reject)]),
    // Of `elseif` and `else` the first branch that holds is taken, and what stands behind `endif` follows each.
    (
        "P",
        "\
route-policy P
  if med eq 1 then
    set weight 1
  elseif med le 2 and not med eq 0 then
    set weight 2
  else
    drop
  endif
  set origin incomplete
end-policy
",
        &[
            (&["med 1"], Accept(&["weight 1", "origin incomplete"])),
            (&["med 2"], Accept(&["weight 2", "origin incomplete"])),
            (&["med 0"], Reject),
        ],
    ),
    (
        "IN-X",
        WRITTEN,
        &[
            (&["route 10.1.0.0/16"], Accept(&["local-preference 200"])),
            (&["route 10.1.0.0/25"], Reject),
        ],
    ),
];
