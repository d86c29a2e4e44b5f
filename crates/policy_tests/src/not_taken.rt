// What `judge` takes and `translate` doesn't: constructs that RPL can't say.
use crate::runs::{TRANSLATE, shows, unfailing};
use std::test::Fail;

#[test]
fn not_taken(rt: HostRuntime) -> Result<(), Fail> {
    let rows = [
        // Exactly these communities.
        (
            "\
ip community-list standard C permit 65001:1
route-map IN permit 10
 match community C exact-match
 set weight 10
",
            5,
            "in.cfg:3:2: inexpressible in rpl: exact-match",
        ),
        // The first of two, and it stands above its list.
        (
            "\
route-map IN permit 20
 set local-preference 200
 match community C exact-match
route-map IN permit 10
 match community C exact-match
ip community-list standard C permit 65001:1
",
            5,
            "in.cfg:3:2: inexpressible in rpl: exact-match",
        ),
        // A fault comes before what can't be said, wherever it stands.
        (
            "\
ip community-list standard C permit 65001:1
route-map IN permit 10
 match community C exact-match
 match ip address prefix-list PL
",
            4,
            "in.cfg:4:2: outside: undefined",
        ),
        (
            "\
ip community-list standard C permit 65001:1
route-map IN permit 10
 match community C exact-match
 continue
",
            5,
            "in.cfg:3:2: inexpressible in rpl: exact-match",
        ),
    ];
    for (source, status, line) in rows {
        let texts = [("in.cfg", source)];
        shows(&rt, &unfailing(TRANSLATE, &texts), (status, "", line))?;
    }
    Ok(())
}

#[test]
fn not_reached(rt: HostRuntime) -> Result<(), Fail> {
    let source = "\
ip community-list standard C permit 65001:1
route-map OUT permit 10
 match community C exact-match
 continue
route-map IN permit 10
";
    let text = "\
route-policy M
  done
end-policy
!
";
    let texts = [("in.cfg", source)];
    shows(&rt, &unfailing(TRANSLATE, &texts), (0, text, ""))
}
