//! The tests of the crates of texts, values and diagrams, a file a subject: cuts, routes, lists, patterns, diagrams, files,
//! and calls with ample memory. It stands on those crates and has nothing but tests; what a contract says is proved in its
//! own crate.
#![tactic(auto)]

#[cfg(test)]
mod classes_of_paths;
#[cfg(test)]
mod community_changes;
#[cfg(test)]
mod diagrams;
#[cfg(test)]
mod files;
#[cfg(test)]
mod junos_cut;
#[cfg(test)]
mod path_items;
#[cfg(test)]
mod pattern_texts;
#[cfg(test)]
mod prefix_ranges;
#[cfg(test)]
mod route_changes;
#[cfg(test)]
mod rpl_cut;
#[cfg(test)]
mod statements;
