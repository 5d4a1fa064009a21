//! JSON texts (RFC 8259): which bytes spell which tree, how they are read, and that the two agree.
#![tactic(auto)]

mod laws;

pub use laws::{
    compact_has_no_line_feed, compact_is_read, compact_round_trip, documents_are_read,
    documents_are_spelled, documents_are_trees, faults_have_places, one_tree, quoted_is_spelled,
    strings_are_read, strings_are_spelled,
};
