/// What may stand under a key that holds no schema.
#[derive(Clone, Copy, Debug, PartialEq, Eq)]
pub enum ValueKind {
    Anything,
    Text,
    Flag,
    /// The flag false alone.
    False,
    /// The flag true alone.
    True,
    /// An integer from 0 to 4,294,967,295.
    Count,
    /// An integer of 128 bits.
    Int,
    /// An integer of 128 bits that is at least 1.
    AtLeastOne,
    /// An integer from 1 to 8.
    Version,
    /// The name of the one engine of patterns, `rust-regex`.
    Engine,
    /// `int` or `str`.
    SubType,
    /// A list of texts that is not empty.
    Texts,
    /// A list of null, flags, ints and texts that is not empty.
    Literals,
    /// A list of pairs of a name and a value that is not empty. Names are distinct texts, and
    /// values distinct ints or texts.
    Members,
    /// `ignore`, `allow` or `forbid`.
    ExtraBehavior,
    /// `raise` or `default`.
    OnError,
    /// `always`, `never` or `subclass-instances`.
    Revalidation,
    /// A list without items.
    EmptyList,
    /// A text, a path, or a list of paths that is not empty. A path is a list of texts and counts
    /// that begins with a text.
    Alias,
    /// `smart` or `left_to_right`.
    UnionMode,
    /// An object of two members: `type`, which is `no-info`, and `function`, a text.
    Function,
}
