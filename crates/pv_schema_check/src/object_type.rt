//! The row of an object's type.

ghost use Rattle.std.specs.Prelude.{◌≡◌};
ghost use Rattle.pv_schema_check.specs.Find.{itself, tree_at};
ghost use Rattle.pv_schema_check.specs.ObjectTypes as spec;
ghost use Rattle.pv_schema_check.specs.ObjectTypes.{found_in};
ghost use Rattle.pv_schema_table.specs.Rows.{types_in};
ghost use Rattle.pv_schema_values.specs.Values.{text_of as value_text};

use crate::fault::{Code, ShapeCode};
use crate::finding::find;
use pv_schema_table::{Key, Makes, TypeRow, row_named};
use pv_schema_values::text_of;
use pv_text::Text;
use pv_tree::Tree;

/// The row of the type that a value under `type` names, where it is built.
fn row_of_value(rows: &[TypeRow], value: &Tree) -> Result<TypeRow, Code>
    ensures { found_in result
        ≡ spec.row_of_name (types_in rows.now) (value_text value.now) }
{
    let Some(name) = text_of(value) else {
        return Err(Code::Shape(ShapeCode::UnknownType));
    };
    let Some(row) = row_named(rows, name.as_str()) else {
        return Err(Code::Shape(ShapeCode::UnknownType));
    };
    match row.makes {
        Makes::NotBuilt => Err(Code::NotYet),
        Makes::Node(_) => Ok(row),
        Makes::Field => Ok(row),
    }
}

/// The row of the object that has these members, by its type; or what is wrong with the type.
pub fn row_of(rows: &[TypeRow], members: &[(Text, Tree)]) -> Result<TypeRow, Code>
    ensures { found_in result
        ≡ spec.row_of (types_in rows.now) (tree_at itself members.now Key.Type) }
{
    match find(members, Key::Type) {
        Some(value) => row_of_value(rows, value),
        None => Err(Code::Shape(ShapeCode::MissingKey)),
    }
}
