//! What functions give.

ghost use Rattle.std.specs.Prelude.{◌≡◌};
ghost use Rattle.pv_func.specs.Raised.{raised};

use pv_fault::Kind;
use pv_text::Text;
use pv_tree::{Tree, Value};

/// Why a function refuses its input.
#[derive(Drop)]
pub enum Raise {
    /// A bad value, with the words that say why.
    Value(Text),
    /// A claim that does not hold, with its words.
    Assertion(Text),
    /// An error of a type of the function's own.
    Custom { kind: Text, message: Text },
}

impl Raise {
    /// The kind of the error that it is.
    pub fn into_kind(self) -> Kind
        ensures { result ≡ raised self }
    {
        match self {
            Raise::Value(error) => Kind::ValueError { error },
            Raise::Assertion(error) => Kind::AssertionError { error },
            Raise::Custom { kind, message } => Kind::Custom { kind, message },
        }
    }
}

/// What a function gives before the validation of a tree.
#[derive(Drop)]
pub enum Raw {
    /// The tree that is validated.
    Give(Tree),
    Raise(Raise),
}

/// What a function makes of a tree or of a value.
#[derive(Drop)]
pub enum Made {
    /// The value that stands in the place.
    Give(Value),
    Raise(Raise),
}
