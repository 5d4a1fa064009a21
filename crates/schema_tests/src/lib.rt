//! Tests of the crates of validation: schemas, values without parts, plans, depth, words and whole
//! runs. They stand apart, so that no crate is proved a second time for them. What
//! a schema, a document and an answer show is a row of `worked_rows` and no test.
#![tactic(auto)]

#[cfg(test)]
mod commands;
#[cfg(test)]
mod depth;
#[cfg(test)]
mod fixtures;
#[cfg(test)]
mod formats;
#[cfg(test)]
mod functions;
#[cfg(test)]
mod numbers;
#[cfg(test)]
mod picks;
#[cfg(test)]
mod plans;
#[cfg(test)]
mod runs;
#[cfg(test)]
mod schemas;
#[cfg(test)]
mod tables;
#[cfg(test)]
mod unions;
#[cfg(test)]
mod values;
