//! The tests of IOS XR Route Policy Language, a file a subject: where texts are broken, what they read as, and why a
//! policy is not in the profile. It stands on the crates of this language and has nothing but tests; what a contract
//! says is proved in its own crate.
#![tactic(auto)]

#[cfg(test)]
mod broken;
#[cfg(test)]
mod causes;
#[cfg(test)]
mod deep;
#[cfg(test)]
mod shown;
#[cfg(test)]
mod trees;
