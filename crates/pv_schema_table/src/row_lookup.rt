//! The row of a type, and what may stand under the keys of an object.

ghost use Rattle.std.specs.Prelude.{◌≡◌};
ghost use Rattle.std.specs.Option.{option_map};
ghost use Rattle.pv_schema_table.specs.Rows.{object_in, type_in, types_in};
ghost use Rattle.pv_schema_table.specs.Table as spec;

use crate::kind::Kind;
use crate::row::{KeyRow, ObjectRow, TypeRow};

/// The row of the type of this name.
pub fn row_named(rows: &[TypeRow], name: &str) -> Option<TypeRow>
    ensures { option_map type_in result ≡ spec.row_named name.now (types_in rows.now) }
{
    for row in rows {
        if name == row.name {
            return Some(*row);
        }
    }
    None
}

fn kind_in(rows: &[KeyRow], key: &str) -> Option<Kind>
    ensures { result ≡ spec.kind_in rows.now key.now }
{
    for row in rows {
        if key == row.key.text() {
            return Some(row.kind);
        }
    }
    None
}

/// What may stand under a key of an object; nothing where the object does not take the key.
#[tactic(auto, using(crate::proofs::TableLemmas::kind_not_found))]
pub fn kind_under(object: ObjectRow, key: &str) -> Option<Kind>
    ensures { result ≡ spec.kind_under (object_in object) key.now }
{
    match kind_in(object.shared, key) {
        Some(kind) => Some(kind),
        None => kind_in(object.own, key),
    }
}
