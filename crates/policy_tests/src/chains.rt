// Chains of Junos policies: what they make of routes, and what is told of a text of which none is judged. The names of a
// chain stand with a comma between two.
use crate::named::{judged, refused};
use std::test::Fail;

mod customer;
mod exchange;
mod flows;
mod refused;

#[test]
fn chains(rt: HostRuntime) -> Result<(), Fail> {
    for rows in [customer::CHAINS, exchange::CHAINS, flows::CHAINS] {
        judged(&rt, "junos", rows)?;
    }
    Ok(())
}

#[test]
fn refused_chains(rt: HostRuntime) -> Result<(), Fail> {
    refused(&rt, "junos", refused::REFUSED)
}
