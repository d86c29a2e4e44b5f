// `continue` with a number that isn't above the entry's.
use super::Row;

pub const ROWS: &[Row] = &[
    (
        "\
route-map IN permit 10
 continue 10
",
        "in.cfg:2:2: outside: backward-continue",
        "\
route-map IN permit 10
 continue 11
route-map IN permit 11
",
    ),
    (
        "\
route-map IN permit 5
route-map IN permit 10
 continue 5
",
        "in.cfg:3:2: outside: backward-continue",
        "\
route-map IN permit 5
 continue 10
route-map IN permit 10
",
    ),
    (
        "\
route-map IN permit 10
 continue 5
",
        "in.cfg:2:2: outside: backward-continue",
        "\
route-map IN permit 10
 continue
",
    ),
];
