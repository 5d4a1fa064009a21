//! Functions of any kind.

ghost use Rattle.std.specs.Prelude.{◌≡◌};
ghost use Rattle.pv_func.specs.Functions.{kind_of};

/// A function of any kind: `B`, `A`, `P` and `W` are what a function of the kind is.
#[derive(Drop)]
pub enum Func<B, A, P, W> {
    /// It sees a tree before the tree is validated.
    Before(B),
    /// It sees the value that validation gives.
    After(A),
    /// It stands in the place of validation.
    Plain(P),
    /// It goes around validation: it asks what validation gives, and is answered.
    Wrap(W),
}

/// The kind of a function.
#[derive(Clone, Copy, Debug, PartialEq, Eq)]
pub enum FuncKind {
    Before,
    After,
    Plain,
    Wrap,
}

/// The number of a function in its registry, from 0 in the order in which they were added.
#[derive(Clone, Copy, Debug, PartialEq, Eq)]
pub struct FuncId {
    pub(crate) number: usize,
}

impl<B, A, P, W> Func<B, A, P, W> {
    /// The kind of the function.
    pub fn kind(&self) -> FuncKind
        ensures { result ≡ kind_of self.now }
    {
        match self {
            Func::Before(_) => FuncKind::Before,
            Func::After(_) => FuncKind::After,
            Func::Plain(_) => FuncKind::Plain,
            Func::Wrap(_) => FuncKind::Wrap,
        }
    }
}
