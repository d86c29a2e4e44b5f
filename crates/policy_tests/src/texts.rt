// The texts in RPL that a policy of IOS is written as, by hand from the layout.
use crate::runs::{shows, unfailing};
use std::test::Fail;

#[test]
fn texts(rt: HostRuntime) -> Result<(), Fail> {
    let rows = [
        // Two entries out of number order, the first a deny.
        (
            "M",
            "\
ip prefix-list A seq 5 permit 10.0.0.0/8 le 24
ip prefix-list B seq 5 permit 192.168.0.0/16
route-map IN permit 20
 match ip address prefix-list A
 set local-preference 200
route-map IN deny 10
 match ip address prefix-list B
",
            "\
prefix-set M-p1
  192.168.0.0/16
end-set
!
prefix-set M-p2
  10.0.0.0/8 le 24
end-set
!
route-policy M
  if destination in M-p1 then
    drop
  endif
  if destination in M-p2 then
    set local-preference 200
    done
  endif
  drop
end-policy
!
",
        ),
        // Nothing follows an entry without a match line.
        (
            "M",
            "\
ip prefix-list A seq 5 permit 10.0.0.0/8
route-map IN permit 10
 set local-preference 50
route-map IN deny 20
 match ip address prefix-list A
",
            "\
route-policy M
  set local-preference 50
  done
end-policy
!
",
        ),
        // A deny entry without a match line, behind one with.
        (
            "M",
            "\
ip prefix-list A seq 5 permit 10.0.0.0/8
route-map IN permit 10
 match ip address prefix-list A
route-map IN deny 20
route-map IN permit 30
",
            "\
prefix-set M-p1
  10.0.0.0/8
end-set
!
route-policy M
  if destination in M-p1 then
    done
  endif
  drop
end-policy
!
",
        ),
        // A deny entry sets nothing.
        (
            "M",
            "\
route-map IN deny 10
 set local-preference 50
",
            "\
route-policy M
  drop
end-policy
!
",
        ),
        // Equal lists share a set.
        (
            "M",
            "\
ip prefix-list A seq 5 permit 10.0.0.0/8
ip prefix-list A seq 10 permit 172.16.0.0/12
ip prefix-list B seq 20 permit 172.16.0.0/12
ip prefix-list B seq 10 permit 10.0.0.0/8
ip prefix-list C seq 5 permit 192.168.0.0/16
route-map IN permit 10
 match ip address prefix-list C
route-map IN permit 20
 match ip address prefix-list A
 set local-preference 10
route-map IN deny 30
 match ip address prefix-list B
",
            "\
prefix-set M-p1
  192.168.0.0/16
end-set
!
prefix-set M-p2
  10.0.0.0/8,
  172.16.0.0/12
end-set
!
route-policy M
  if destination in M-p1 then
    done
  endif
  if destination in M-p2 then
    set local-preference 10
    done
  endif
  if destination in M-p2 then
    drop
  endif
  drop
end-policy
!
",
        ),
        // Ranges.
        (
            "M",
            "\
ip prefix-list R seq 10 permit 10.0.0.0/8
ip prefix-list R seq 20 permit 10.0.0.0/8 le 24
ip prefix-list R seq 30 permit 10.0.0.0/8 ge 16
ip prefix-list R seq 40 permit 10.0.0.0/8 ge 16 le 24
ip prefix-list R seq 50 permit 10.0.0.0/8 ge 24 le 24
ip prefix-list R seq 60 permit 11.0.0.0/8 ge 8 le 24
ip prefix-list R seq 70 permit 11.0.0.0/8 ge 16 le 32
ip prefix-list R seq 80 permit 11.0.0.0/8 le 8
ip prefix-list R seq 90 permit 11.0.0.0/8 le 32
ip prefix-list R seq 100 permit 0.0.0.0/0 ge 32
ip prefix-list R seq 110 permit 255.255.255.255/32
ip prefix-list R seq 120 permit 10.1.2.3/16
route-map IN permit 10
 match ip address prefix-list R
",
            "\
prefix-set M-p1
  10.0.0.0/8,
  10.0.0.0/8 le 24,
  10.0.0.0/8 ge 16,
  10.0.0.0/8 ge 16 le 24,
  10.0.0.0/8 eq 24,
  11.0.0.0/8 le 24,
  11.0.0.0/8 ge 16,
  11.0.0.0/8,
  11.0.0.0/8 le 32,
  0.0.0.0/0 eq 32,
  255.255.255.255/32,
  10.1.0.0/16
end-set
!
route-policy M
  if destination in M-p1 then
    done
  endif
  drop
end-policy
!
",
        ),
        // Foreign lines, CR LF, tabs, comments and lines outside an entry.
        (
            "M",
            "\
!\r
hostname R1\r
\tip address 10.0.0.1 255.0.0.0\r
 match community C\r
ip prefix-list\tPL seq 5  permit 10.0.0.0/8 \r
route-map IN permit 10\r
\tmatch ip address\tprefix-list PL\r
  ! set local-preference 1\r
!\r
\r
set local-preference 200\r
router bgp 65000\r
 set local-preference 300\r
",
            "\
prefix-set M-p1
  10.0.0.0/8
end-set
!
route-policy M
  if destination in M-p1 then
    set local-preference 200
    done
  endif
  drop
end-policy
!
",
        ),
        // Descriptions, and other forms in what is not reached.
        (
            "M",
            "\
ip prefix-list A description from the peer
ip prefix-list A seq 5 permit 10.0.0.0/8
ip prefix-list B seq 5 deny 10.0.0.0/8
ip prefix-list B permit 11.0.0.0/8
ip community-list standard C permit 65000:1
ip as-path access-list 10 permit _65001_
route-map OUT permit 10
 match community C
 match as-path 10
 match ip address prefix-list A B
 set metric 5
 continue
route-map IN permit 10
 description from the peer
 match ip address prefix-list A
 description once more
 set local-preference 200
",
            "\
prefix-set M-p1
  10.0.0.0/8
end-set
!
route-policy M
  if destination in M-p1 then
    set local-preference 200
    done
  endif
  drop
end-policy
!
",
        ),
        // A name that is a word of the language.
        (
            "pass",
            "\
ip prefix-list A seq 5 permit 10.0.0.0/8
route-map IN deny 10
 match ip address prefix-list A
",
            "\
prefix-set pass-p1
  10.0.0.0/8
end-set
!
route-policy pass
  if destination in pass-p1 then
    drop
  endif
  drop
end-policy
!
",
        ),
        // A name that is the word which ends a policy.
        (
            "end-policy",
            "\
ip prefix-list A seq 5 permit 10.0.0.0/8
route-map IN permit 10
 match ip address prefix-list A
",
            "\
prefix-set end-policy-p1
  10.0.0.0/8
end-set
!
route-policy end-policy
  if destination in end-policy-p1 then
    done
  endif
  drop
end-policy
!
",
        ),
        // The longest name, and faults in what is not reached.
        (
            "a23456789012345678901234567890123456789012345678901234567890-_3",
            "\
ip prefix-list OTHER seq 5 permit 10.0.0.0/8 le 33
ip prefix-list OTHER seq 5 permit 10.0.0.0/8
route-map OUT permit 10
 match ip address prefix-list NONE
 set colour red
route-map OUT permit 10
route-map IN permit 18446744073709551615",
            "\
route-policy a23456789012345678901234567890123456789012345678901234567890-_3
  done
end-policy
!
",
        ),
    ];
    for (name, source, text) in rows {
        let words = format!(in rt.alloc();
            "translate --from ios --policy IN --to rpl --as {name} in.cfg"
        )?;
        let texts = [("in.cfg", source)];
        shows(&rt, &unfailing(words.as_str(), &texts), (0, text, ""))?;
    }
    Ok(())
}
