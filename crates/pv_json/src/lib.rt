//! Reading of JSON documents (RFC 8259) in UTF-8.
#![tactic(auto)]

mod fault;
mod plain;
mod reading;
mod rest;
mod strings;
mod symbols;
mod values;

pub use fault::ReadFault;
pub use reading::{NESTING, read};
