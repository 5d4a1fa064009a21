//! Functions that a schema names: the objects, and the registry that holds them by their names.
#![tactic(auto)]

mod after;
mod before;
mod exchange;
mod func;
mod laws;
mod objects;
mod plain;
mod raise;
mod registry;
mod turn;
mod wrap;

pub use after::AfterFn;
pub use before::BeforeFn;
pub use exchange::{Move, WrapRun, answer, begin};
pub use func::{Func, FuncId, FuncKind};
pub use laws::moves_are_the_exchange;
pub use objects::Objects;
pub use plain::PlainFn;
pub use raise::{Made, Raise, Raw};
pub use registry::{AddFault, Registry};
pub use turn::{Answer, First, Turn};
pub use wrap::WrapFn;
