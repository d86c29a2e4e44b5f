//! The tests of the program, a file a subject: policies, routes, causes, lines of each status, faults of the outside. It
//! stands on the program and has nothing but tests; what a contract says is proved in its own crate.
#![tactic(auto)]

#[cfg(test)]
mod causes;
#[cfg(test)]
mod chains;
#[cfg(test)]
mod customer;
#[cfg(test)]
mod named;
#[cfg(test)]
mod not_taken;
#[cfg(test)]
mod outside;
#[cfg(test)]
mod policies;
#[cfg(test)]
mod route_texts;
#[cfg(test)]
mod routes;
#[cfg(test)]
mod rpl;
#[cfg(test)]
mod runs;
#[cfg(test)]
mod texts;
#[cfg(test)]
mod words;
#[cfg(test)]
mod written;
