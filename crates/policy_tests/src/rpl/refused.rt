// Policies that are not judged: a text that is broken, a name under which no policy stands, a fault of the profile.
use crate::named::{Refused, TAKEN};

pub const REFUSED: &[Refused] = &[
    ("P", "", 4, "in.cfg: no policy P"),
    (
        "p",
        "route-policy P\nend-policy\n",
        4,
        "in.cfg: no policy p",
    ),
    ("P", "prefix-set P\nend-set\n", 4, "in.cfg: no policy P"),
    // A block that does not end, also under another name; the first line of one ends with its line.
    (
        "P",
        "route-policy P\n  pass\n",
        3,
        "in.cfg:1:1: broken: unended",
    ),
    ("P", "route-policy P\n  pass\nend-policy\n", 10, TAKEN),
    (
        "P",
        "route-policy P\n  pass\nend-policy\n prefix-set S\n  10.0.0.0/8\n",
        3,
        "in.cfg:4:2: broken: unended",
    ),
    (
        "P",
        "route-policy P\n  pass\nend-policy\nrouter bgp 65000\n neighbor 192.0.2.2\n  route-policy P in\n",
        3,
        "in.cfg:6:3: broken: unended",
    ),
    // `endif`, `else`, `elseif` and `end-policy` out of place.
    (
        "P",
        "route-policy P\n  endif\nend-policy\n",
        3,
        "in.cfg:2:3: broken: misplaced",
    ),
    (
        "Q",
        "route-policy P\n  pass else\nend-policy\n",
        3,
        "in.cfg:2:8: broken: misplaced",
    ),
    (
        "P",
        "route-policy P\n if med eq 1 then\n else\n elseif med eq 2 then\n endif\nend-policy\n",
        3,
        "in.cfg:4:2: broken: misplaced",
    ),
    (
        "P",
        "route-policy P\n if med eq 1 then\nend-policy\n",
        3,
        "in.cfg:3:1: broken: misplaced",
    ),
    // Each cause, at the statement that has it.
    (
        "P",
        "route-policy P\n  pass\n  set dampening\nend-policy\n",
        4,
        "in.cfg:3:3: outside: unknown-form",
    ),
    (
        "P",
        "route-policy P\n  pass\nend-policy\nroute-policy Q\n  set dampening\nend-policy\n",
        10,
        TAKEN,
    ),
    (
        "P",
        "route-policy P\nend-policy\nroute-policy P\nend-policy\n",
        4,
        "in.cfg:3:1: outside: defined-twice",
    ),
    (
        "P",
        "route-policy P\n  if destination in S then\n  endif\nend-policy\n",
        4,
        "in.cfg:2:3: outside: undefined",
    ),
    (
        "P",
        "community-set S\n  65000:*\nend-set\nroute-policy P\n  set community S\nend-policy\n",
        4,
        "in.cfg:5:3: outside: not-plain",
    ),
    (
        "P",
        "route-policy P\n  apply P\nend-policy\n",
        4,
        "in.cfg:2:3: outside: cycle",
    ),
    (
        "P",
        "route-policy P($x)\n  pass\nend-policy\n",
        4,
        "in.cfg:1:1: outside: argument-count",
    ),
    (
        "P",
        "route-policy SETLP($x)\n  set local-preference $x\n  done\nend-policy\nroute-policy P\n  apply SETLP(300, 4)\n  drop\nend-policy\n",
        4,
        "in.cfg:6:3: outside: argument-count",
    ),
    (
        "P",
        "route-policy SETLP($x)\n  set local-preference $x\n  done\nend-policy\nroute-policy P\n  apply SETLP(high)\n  drop\nend-policy\n",
        4,
        "in.cfg:6:3: outside: bad-argument",
    ),
];
