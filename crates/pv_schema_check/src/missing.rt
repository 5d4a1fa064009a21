//! The keys that have to be there.

ghost use Rattle.std.specs.Prelude.{◌≡◌};
ghost use Rattle.pv_schema_check.specs.Answers.{Answers};
ghost use Rattle.pv_schema_check.specs.Checking as spec;
ghost use Rattle.pv_schema_check.specs.Find.{itself, tree_at};

use crate::check_fault::CheckFault;
use crate::fault::{Code, ShapeCode};
use crate::finding::find;
use crate::refusals::refused_at;
use pv_schema_table::KeyRow;
use pv_text::Text;
use pv_tree::Tree;
use std::alloc::Global;

fn is_absent(row: &KeyRow, members: &[(Text, Tree)]) -> bool
    ensures { result ≡ spec.is_absent (tree_at itself members.now) row.now }
{
    row.required && find(members, row.key).is_none()
}

/// The first key that has to be there and is not.
pub(crate) fn check_missing(
    alloc: Global,
    rows: &[KeyRow],
    members: &[(Text, Tree)],
) -> Result<(), CheckFault>
    ensures { Answers result (spec.missing (tree_at itself members.now) rows.now) }
{
    for row in rows {
        if is_absent(row, members) {
            return Err(refused_at(alloc, row.key, Code::Shape(ShapeCode::MissingKey)));
        }
    }
    Ok(())
}
