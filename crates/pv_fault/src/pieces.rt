//! What the texts of one kind of error are made of.

ghost use Rattle.std.specs.Prelude.{◌≤◌};

#[derive(Clone, Copy)]
pub(crate) enum Piece<'a> {
    Text(&'a str),
    Number(i128),
    Count(u64),
}

/// A key of a context and what stands at it.
#[derive(Clone, Copy)]
pub(crate) struct Member<'a> {
    pub(crate) key: &'a str,
    pub(crate) value: Piece<'a>,
}

/// The first `len` of the members.
#[derive(Clone, Copy)]
pub(crate) struct Context<'a> {
    pub(crate) members: [Member<'a>; 3],
    pub(crate) len: usize,
    ghost within: { len ≤ 3 },
}

/// The name of a kind, its message in pieces that are written one after another, and its context.
#[derive(Clone, Copy)]
pub(crate) struct Wording<'a> {
    pub(crate) name: &'a str,
    pub(crate) message: [Piece<'a>; 7],
    pub(crate) context: Context<'a>,
}
