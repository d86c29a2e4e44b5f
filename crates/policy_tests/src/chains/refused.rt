// Chains that are not judged: a text that is broken, a name under which no policy stands, a fault of the profile.
use crate::named::{Refused, TAKEN};

/// A path is tested behind numbers that are put before it.
const BEHIND: &str = "\
policy-options {
    as-path A \".*\";
    policy-statement P {
        term a {
            then {
                as-path-prepend \"65001\";
                next term;
            }
        }
        term b {
            from {
                as-path A;
            }
            then accept;
        }
    }
}
";

/// Two policies, of which the second has a statement of no known form.
const TWO: &str = "\
policy-statement A { then accept; }
policy-statement B { foo; }
";

pub const REFUSED: &[Refused] = &[
    (
        "P",
        BEHIND,
        4,
        "in.cfg:12:17: outside: path-test-after-prepend",
    ),
    // Of a chain the first name under which nothing stands is named, and no other part of the word.
    ("A", TWO, 10, TAKEN),
    ("A,C", TWO, 4, "in.cfg: no policy C"),
    ("C,A", TWO, 4, "in.cfg: no policy C"),
    ("A,D,C", TWO, 4, "in.cfg: no policy D"),
    ("AC", TWO, 4, "in.cfg: no policy AC"),
    // Each policy of the chain is looked into, and a name comes before any fault.
    ("A,B", TWO, 4, "in.cfg:2:22: outside: unknown-form"),
    ("B,C", TWO, 4, "in.cfg: no policy C"),
    // A broken text is told before any name.
    (
        "A",
        "policy-statement A {\n  then accept;\n",
        3,
        "in.cfg:1:1: broken: open-brace",
    ),
    ("A", "policy-statement A {\n  then accept;\n}\n", 10, TAKEN),
    (
        "C",
        "policy-statement A {\n  then accept\n}\n",
        3,
        "in.cfg:2:3: broken: no-ender",
    ),
    (
        "C",
        "policy-statement A {\n  then accept;\n}\n",
        4,
        "in.cfg: no policy C",
    ),
    (
        "A",
        "policy-statement A { then accept; }\n}\n",
        3,
        "in.cfg:2:1: broken: stray-brace",
    ),
    (
        "A",
        "policy-statement A { then accept; }\n /* a\n",
        3,
        "in.cfg:2:2: broken: open-comment",
    ),
    (
        "A",
        "policy-statement A { then accept; }\n /* a */\n",
        10,
        TAKEN,
    ),
    (
        "A",
        "policy-statement A { then accept; }\na \"b;\n",
        3,
        "in.cfg:2:3: broken: open-quote",
    ),
    ("A", "", 4, "in.cfg: no policy A"),
];
