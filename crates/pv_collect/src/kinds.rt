//! What the kinds of collections differ in.

ghost use Rattle.std.specs.Prelude.{◌≡◌};
ghost use Rattle.pv_collect.specs.Gathering as spec;

use pv_fault::Grade;
use pv_rules::Collection;
use pv_tree::{Value, Values};

/// The grade of a collection without parts.
pub(crate) fn own_grade(kind: Collection) -> Grade
    ensures { result ≡ spec.own_grade kind }
{
    match kind {
        Collection::List | Collection::Dict => Grade::Exact,
        Collection::Tuple | Collection::Set | Collection::Frozen => Grade::Strict,
    }
}

/// Whether the items of a collection have to be hashable.
pub fn needs_hash(kind: Collection) -> bool
    ensures { result ≡ spec.needs_hash kind }
{
    match kind {
        Collection::Set | Collection::Frozen => true,
        Collection::List | Collection::Tuple | Collection::Dict => false,
    }
}

/// The value of a collection of items that keeps these.
pub(crate) fn made_of(kind: Collection, values: Values) -> Value
    ensures { result ≡ spec.made_of kind values }
{
    match kind {
        Collection::List | Collection::Dict => Value::List(values),
        Collection::Tuple => Value::Tuple(values),
        Collection::Set => Value::Set(values),
        Collection::Frozen => Value::Frozen(values),
    }
}
