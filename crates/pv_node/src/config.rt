//! The settings that nodes configure.

ghost use Rattle.std.specs.Prelude.{◌≡◌};
ghost use Rattle.std.specs.Option.{option_copied};
ghost use Rattle.pv_node.specs.declared.node.Body.{out-Body};
ghost use Rattle.pv_node.specs.Places.{config_at, under};

use crate::node::{Body, Node};
use pv_rules::Settings;

impl Body {
    /// The settings that a node configures for itself and for all that is written in it.
    fn config(&self) -> Option<&Settings>
        ensures { option_copied result ≡ config_at (out-Body self.now) }
    {
        match self {
            Body::Scalar(_) => None,
            Body::Sequence { .. } => None,
            Body::Tuple { .. } => None,
            Body::Dict { .. } => None,
            Body::Nullable { .. } => None,
            Body::Fields { config, .. } => config.as_ref(),
            Body::Model { config, .. } => config.as_ref(),
            Body::Default { .. } => None,
            Body::Union { .. } => None,
            Body::TaggedUnion { .. } => None,
            Body::LaxOrStrict { .. } => None,
            Body::JsonOrPython { .. } => None,
            Body::CustomError { .. } => None,
            Body::Before { .. } => None,
            Body::After { .. } => None,
            Body::Wrap { .. } => None,
            Body::Plain { .. } => None,
            Body::Definitions { .. } => None,
            Body::DefinitionRef { .. } => None,
        }
    }
}

impl Node {
    /// The settings in force in a node, by those in force around it.
    pub fn settings<'a>(&'a self, around: &'a Settings) -> &'a Settings
        ensures { result.now ≡ under self.now around.now }
    {
        match self.body.config() {
            Some(config) => config,
            None => around,
        }
    }
}
