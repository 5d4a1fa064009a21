use pv_schema_check::ShapeCode;
use pv_tree::Loc;

/// Why a tree is no schema. Want of memory may come in place of each answer.
#[derive(Drop)]
pub enum SchemaFault {
    /// The first place, in the order of the file, whose shape is wrong.
    Shape { path: Loc, code: ShapeCode },
    /// The first refusal stands at a type or a key that is not built yet.
    NotYet { path: Loc },
    /// There are more nodes than a schema may have.
    TooManyNodes { count: u64 },
    Memory,
}
