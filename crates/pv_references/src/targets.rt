//! The names that nodes refer to.

ghost use Rattle.std.specs.Prelude.{◌≡◌};
ghost use Rattle.std.specs.Option.{option_copied};
ghost use Rattle.pv_node.specs.declared.Body.{out-Body};
ghost use Rattle.pv_references.specs.Targets.{reference_of};

use pv_node::Body;
use pv_text::Text;

/// The name that a node refers to, where it is a reference.
pub fn reference(body: &Body) -> Option<&Text>
    ensures { option_copied result ≡ reference_of (out-Body body.now) }
{
    match body {
        Body::Scalar(_) => None,
        Body::Sequence { .. } => None,
        Body::Tuple { .. } => None,
        Body::Dict { .. } => None,
        Body::Nullable { .. } => None,
        Body::Fields { .. } => None,
        Body::Model { .. } => None,
        Body::Default { .. } => None,
        Body::Union { .. } => None,
        Body::TaggedUnion { .. } => None,
        Body::LaxOrStrict { .. } => None,
        Body::JsonOrPython { .. } => None,
        Body::CustomError { .. } => None,
        Body::Before { .. } => None,
        Body::After { .. } => None,
        Body::Wrap { .. } => None,
        Body::Plain { .. } => None,
        Body::Definitions { .. } => None,
        Body::DefinitionRef { schema_ref } => Some(schema_ref),
    }
}
