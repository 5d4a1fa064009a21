ghost use Rattle.std.specs.Prelude.{◌≡◌, IfOk};
ghost use Rattle.pv_collect.specs.Gathering as spec;

use pv_fault::Kind;
use pv_rules::Collection;
use pv_text::{Memory, Text};
use std::alloc::Global;

/// The error of an input that is no array, or for a dict no object.
pub fn type_error(kind: Collection) -> Kind
    ensures { result ≡ spec.type_error kind }
{
    match kind {
        Collection::List => Kind::ListType,
        Collection::Tuple => Kind::TupleType,
        Collection::Set => Kind::SetType,
        Collection::Frozen => Kind::FrozenSetType,
        Collection::Dict => Kind::DictType,
    }
}

/// The name of a collection in a message.
pub(crate) fn field_type(alloc: Global, kind: Collection) -> Result<Text, Memory>
    ensures { IfOk result (λ t. t ≡ spec.field_type kind) }
{
    match kind {
        Collection::List => Text::from_str(alloc, "List"),
        Collection::Tuple => Text::from_str(alloc, "Tuple"),
        Collection::Set => Text::from_str(alloc, "Set"),
        Collection::Frozen => Text::from_str(alloc, "Frozenset"),
        Collection::Dict => Text::from_str(alloc, "Dictionary"),
    }
}
