// The items of a tree as lines: each with its line and column and what it says.
use crate::places::place;
use junos_tree::{
    Action, CommunityVerb, Condition, Flow, JunosForm, JunosTree, OtherItem, StatementSort,
};
use prefix_sets::PrefixRange;
use route_types::{Address, NextHop, Origin, Prefix, Rect, Row, push_address, push_prefix};
use std::alloc::Global;
use std::str;
use std::test::Fail;

fn words(alloc: Global, first: &str, rest: &[u8]) -> Result<String, Fail> {
    let rest = str::from_utf8(rest)?;
    Ok(format!(in alloc; "{first} {rest}")?)
}

fn names(alloc: Global, first: &str, names: &[Row<u8>]) -> Result<String, Fail> {
    let mut out = String::from_str(alloc, first)?;
    for name in names {
        out.push_str(" ")?;
        out.push_str(str::from_utf8(name.as_slice())?)?;
    }
    Ok(out)
}

fn prefix(alloc: Global, prefix: &Prefix) -> Result<String, Fail> {
    let mut out = Vec::new(alloc);
    push_prefix(&mut out, prefix)?;
    words(alloc, "member", out.as_slice())
}

fn addresses(alloc: Global, addresses: &[Address]) -> Result<String, Fail> {
    let mut out = Vec::new(alloc);
    for address in addresses {
        out.push(b' ')?;
        push_address(&mut out, address)?;
    }
    words(alloc, "next-hop", out.as_slice())
}

fn range(alloc: Global, range: &PrefixRange) -> Result<String, Fail> {
    let mut out = Vec::new(alloc);
    push_prefix(&mut out, &range.prefix())?;
    let text = str::from_utf8(out.as_slice())?;
    let (least, most) = (range.least(), range.most());
    Ok(format!(in alloc; "route-filter {text} {least}-{most}")?)
}

fn rects(alloc: Global, name: &[u8], rects: &[Rect]) -> Result<String, Fail> {
    let mut out = words(alloc, "community", name)?;
    for rect in rects {
        let (a, b, c, d) = (
            rect.high_least(),
            rect.high_most(),
            rect.low_least(),
            rect.low_most(),
        );
        let shown = format!(in alloc; " {a}-{b}:{c}-{d}")?;
        out.push_str(shown.as_str())?;
    }
    Ok(out)
}

fn numbers(alloc: Global, first: &str, numbers: &[u32]) -> Result<String, Fail> {
    let mut out = String::from_str(alloc, first)?;
    for number in numbers {
        let shown = format!(in alloc; " {number}")?;
        out.push_str(shown.as_str())?;
    }
    Ok(out)
}

fn origin(origin: Origin) -> &'static str {
    match origin {
        Origin::Igp => "origin igp",
        Origin::Egp => "origin egp",
        Origin::Incomplete => "origin incomplete",
    }
}

fn condition(alloc: Global, condition: &Condition) -> Result<String, Fail> {
    match condition {
        Condition::Protocol(v) => names(alloc, "protocol", v.as_slice()),
        Condition::Community(v) => names(alloc, "community", v.as_slice()),
        Condition::AsPath(v) => names(alloc, "as-path", v.as_slice()),
        Condition::NextHop(v) => addresses(alloc, v.as_slice()),
        Condition::Policy(v) => names(alloc, "policy", v.as_slice()),
        Condition::PrefixList(v) => names(alloc, "prefix-list", v.as_slice()),
        Condition::RouteFilter(v) => range(alloc, v),
        Condition::ListFilter(v) if v.or_longer => words(alloc, "orlonger", v.list.as_slice()),
        Condition::ListFilter(v) => words(alloc, "exact", v.list.as_slice()),
        Condition::Metric(n) => numbers(alloc, "metric", &[*n]),
        Condition::LocalPreference(n) => numbers(alloc, "local-preference", &[*n]),
        Condition::Origin(o) => Ok(String::from_str(alloc, origin(*o))?),
    }
}

fn flow(flow: Flow) -> &'static str {
    match flow {
        Flow::Accept => "accept",
        Flow::Reject => "reject",
        Flow::NextTerm => "next term",
        Flow::NextPolicy => "next policy",
    }
}

fn verb(verb: CommunityVerb) -> &'static str {
    match verb {
        CommunityVerb::Set => "set",
        CommunityVerb::Add => "add",
        CommunityVerb::Delete => "delete",
    }
}

fn hop(alloc: Global, hop: &NextHop) -> Result<String, Fail> {
    match hop {
        NextHop::Own => Ok(String::from_str(alloc, "next-hop self")?),
        NextHop::At(address) => addresses(alloc, &[*address]),
    }
}

fn action(alloc: Global, action: &Action) -> Result<String, Fail> {
    match action {
        Action::Flow(f) => Ok(String::from_str(alloc, flow(*f))?),
        Action::Metric(n) => numbers(alloc, "metric", &[*n]),
        Action::LocalPreference(n) => numbers(alloc, "local-preference", &[*n]),
        Action::Origin(o) => Ok(String::from_str(alloc, origin(*o))?),
        Action::NextHop(h) => hop(alloc, h),
        Action::Community(c) => words(alloc, verb(c.verb), c.community.as_slice()),
        Action::Prepend(path) => numbers(alloc, "prepend", path.as_slice()),
    }
}

fn sort(sort: StatementSort) -> &'static str {
    match sort {
        StatementSort::PrefixList => "other prefix-list",
        StatementSort::Community => "other community",
        StatementSort::AsPath => "other as-path",
        StatementSort::Policy => "other policy-statement",
        StatementSort::Inner => "other",
    }
}

fn other(alloc: Global, other: &OtherItem) -> Result<String, Fail> {
    match &other.name {
        Some(name) => words(alloc, sort(other.sort), name.as_slice()),
        None => Ok(String::from_str(alloc, sort(other.sort))?),
    }
}

/// Of the term without a name, or of a named one.
fn of_term(unnamed: bool) -> &'static str {
    if unnamed { "unnamed " } else { "" }
}

fn form(alloc: Global, form: &JunosForm) -> Result<String, Fail> {
    match form {
        JunosForm::PrefixList(name) => words(alloc, "prefix-list", name.as_slice()),
        JunosForm::Member(p) => prefix(alloc, p),
        JunosForm::Community(c) => rects(alloc, c.name.as_slice(), c.members.as_slice()),
        JunosForm::AsPath(p) => {
            let first = words(alloc, "as-path", p.name.as_slice())?;
            words(alloc, first.as_str(), p.text.as_slice())
        }
        JunosForm::Policy(name) => words(alloc, "policy-statement", name.as_slice()),
        JunosForm::Term(name) => words(alloc, "term", name.as_slice()),
        JunosForm::Condition(c) => {
            let (term, text) = (of_term(c.unnamed), condition(alloc, &c.condition)?);
            Ok(format!(in alloc; "{term}from {text}")?)
        }
        JunosForm::Action(a) => {
            let (term, text) = (of_term(a.unnamed), action(alloc, &a.action)?);
            Ok(format!(in alloc; "{term}then {text}")?)
        }
        JunosForm::Other(o) => other(alloc, o),
    }
}

/// A line for each item.
pub fn shown(alloc: Global, text: &str, tree: &JunosTree) -> Result<String, Fail> {
    let mut out = String::new(alloc);
    for item in tree.items() {
        let (line, column) = place(text, item.span.start);
        let form = form(alloc, &item.form)?;
        let shown = format!(in alloc; "{line}:{column} {form}\n")?;
        out.push_str(shown.as_str())?;
    }
    Ok(out)
}
