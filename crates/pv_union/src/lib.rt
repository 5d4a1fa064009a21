//! Unions: which member is taken, how members are called in errors, and tags.
#![tactic(auto)]

mod compact_text;
mod failures;
mod joining;
mod labels;
mod laws;
mod score;
mod tag;
mod tag_places;
mod tag_table;
mod tag_texts;

pub use failures::all_failed;
pub use labels::{choice_labels, label};
pub use laws::{
    best_grade_is_taken, exact_is_taken, most_fields_are_taken, none_is_taken_of_failures,
};
pub use score::{Score, best, is_better, is_sure, score_found};
pub use tag::{Tag, tag_of};
pub use tag_table::TagTable;
