//! Texts in the formats of others: regular expressions, UUIDs and URLs.
#![tactic(auto)]

mod matchers;
mod patterns;
mod urls;
mod uuids;

pub use matchers::Matchers;
pub use patterns::{Pattern, PatternFault, compile_pattern};
pub use urls::{UrlText, url};
pub use uuids::{UuidText, uuid};
