// AS-path lists: the first entry whose pattern is found decides.
use super::Policy;
use super::Verdict::{Accept, Reject};

pub const POLICIES: &[Policy] = &[
    (
        "\
ip as-path access-list 1 permit ^65001_.*_65002$
route-map IN permit 10
 match as-path 1
",
        &[
            (&["as-path 65001 65002"], Reject),
            (&["as-path 65001 3 65002"], Accept(&[])),
            (&["as-path 65001 3 4 65002"], Accept(&[])),
        ],
    ),
    (
        "\
ip as-path access-list 1 permit ^$
route-map IN permit 10
 match as-path 1
",
        &[(&["as-path"], Accept(&[])), (&["as-path 1"], Reject)],
    ),
    (
        "\
ip as-path access-list 1 permit .*
route-map IN permit 10
 match as-path 1
",
        &[
            (&["as-path"], Accept(&[])),
            (&["as-path 4294967295 0"], Accept(&[])),
        ],
    ),
    (
        "\
ip as-path access-list 1 permit ^[0-9]+$
route-map IN permit 10
 match as-path 1
",
        &[
            (&["as-path"], Reject),
            (&["as-path 4294967295"], Accept(&[])),
        ],
    ),
    (
        "\
ip as-path access-list 1 permit ^.*_65002$
route-map IN permit 10
 match as-path 1
",
        &[
            (&["as-path 65002"], Accept(&[])),
            (&["as-path 1 65002"], Accept(&[])),
            (&["as-path 65002 1"], Reject),
        ],
    ),
    (
        "\
ip as-path access-list 1 permit _65001_
route-map IN permit 10
 match as-path 1
",
        &[
            (&["as-path 65001"], Accept(&[])),
            (&["as-path 165001"], Reject),
            (&["as-path 7 65001 8"], Accept(&[])),
        ],
    ),
    (
        "\
ip as-path access-list 1 deny ^65001_.*_65002$
ip as-path access-list 1 permit ^65001_
ip as-path access-list 2 permit ^$
route-map IN permit 10
 match as-path 1 2
",
        &[
            (&["as-path 65001 3 65002"], Reject),
            (&["as-path 65001 65002"], Accept(&[])),
            (&["as-path 65001"], Accept(&[])),
            (&["as-path"], Accept(&[])),
            (&["as-path 650010"], Reject),
        ],
    ),
];

/// Patterns whose digits make millions of ranges of numbers: judge asks them digit by digit, translate answers want of memory.
pub const MANY_RANGES: &[Policy] = &[(
    "\
ip as-path access-list 1 permit ^[13579][13579][13579][13579][13579][13579][13579][13579][13579][13579]$
ip as-path access-list 1 permit ^[0-9][0-9][0-9][0-9][0-9][0-9][0-9][0-9][0-9][02468]_7$
route-map IN permit 10
 match as-path 1
",
    &[
        (&["as-path 1357913579"], Accept(&[])),
        (&["as-path 1357913578"], Reject),
        (&["as-path 4294967294 7"], Accept(&[])),
        (&["as-path 4294967295 7"], Reject),
    ],
)];
