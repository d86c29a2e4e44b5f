//! The tests of Junos: which texts are broken and where, what the tree of a text is, and why a chain is not in the
//! profile. It has nothing but tests; what a contract says is proved in its own crate.
#![tactic(auto)]

#[cfg(test)]
mod broken;
#[cfg(test)]
mod causes;
#[cfg(test)]
mod edge;
#[cfg(test)]
mod hostile;
#[cfg(test)]
mod places;
#[cfg(test)]
mod shown;
#[cfg(test)]
mod trees;
