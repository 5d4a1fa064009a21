use pv_tree::Loc;

/// What is wrong at a place of a schema.
#[derive(Clone, Copy, Debug, PartialEq, Eq)]
pub enum ShapeCode {
    NotObject,
    MissingKey,
    UnknownType,
    UnknownKey,
    BadValue,
}

/// Why a schema is refused at a place: its shape is wrong there, or what stands there is not built
/// yet.
#[derive(Clone, Copy, Debug, PartialEq, Eq)]
pub enum Code {
    Shape(ShapeCode),
    NotYet,
}

/// A refusal and its place.
#[derive(Drop)]
pub struct Refusal {
    pub path: Loc,
    pub code: Code,
}
