//! Tests of the crates below validation: texts, numbers, trees, notations, JSON, errors, files,
//! graphs and the equality of values. They stand apart, so that no crate is proved a second time for them.
#![tactic(auto)]

#[cfg(test)]
mod distinctness;
#[cfg(test)]
mod equality;
#[cfg(test)]
mod errors;
#[cfg(test)]
mod files;
#[cfg(test)]
mod fixtures;
#[cfg(test)]
mod functions;
#[cfg(test)]
mod graph;
#[cfg(test)]
mod json;
#[cfg(test)]
mod lines;
#[cfg(test)]
mod machine;
#[cfg(test)]
mod notations;
#[cfg(test)]
mod numbers;
#[cfg(test)]
mod texts;
#[cfg(test)]
mod trees;
