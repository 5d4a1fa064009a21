/// The kinds of nodes whose value is made of the values of items or of entries.
#[derive(Clone, Copy, Debug, PartialEq, Eq)]
pub enum Collection {
    List,
    Tuple,
    Set,
    Frozen,
    Dict,
}

/// What a collection asks for, apart from what its parts are. A tuple has a number of positions,
/// of which one may stand for any number of items; the other kinds have none.
#[derive(Clone, Copy, Debug, PartialEq, Eq)]
pub struct GatherRule {
    pub kind: Collection,
    pub positions: u64,
    pub variadic_item_index: Option<u64>,
    pub min_length: Option<u64>,
    pub max_length: Option<u64>,
}
