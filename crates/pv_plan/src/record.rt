use pv_fields::FieldPlan;
use pv_rules::GatherRule;
use pv_scalar::Scalar;
use pv_text::Text;
use pv_tree::Tree;
use pv_union::TagTable;
use sqlite_items::Items;

/// What a node does with what its children give.
#[derive(Drop)]
pub enum Op {
    Scalar(Scalar),
    /// A collection. A list, a set and a frozenset have one child for all items, a tuple has one
    /// for each position, and a dict has one for the keys and one for the values.
    Gather(GatherRule),
    Nullable,
    /// A list of fields. It has a child for each field, and one more for extra keys where a schema
    /// of theirs is written.
    Fields(FieldPlan),
    Model {
        cls: Text,
        root_model: bool,
    },
    /// A default, and whether it stands in where the child fails.
    Default {
        default: Tree,
        use_on_error: bool,
    },
    /// A union, with the labels of its children, and whether it takes the first that succeeds.
    Union {
        labels: Items<Text>,
        left_to_right: bool,
    },
    /// A tagged union. Its children stand in the order of the tags.
    TaggedUnion(TagTable),
    /// The first child where the node is not strict, and the second where it is.
    LaxOrStrict,
    /// What the first child gives.
    Inner,
    /// The first child, whose errors are replaced by one of this type.
    CustomError {
        error_type: Text,
        message: Text,
    },
    /// A function that sees the input before the first child does.
    Before {
        name: Text,
    },
    /// A function that sees the value that the first child gives.
    After {
        name: Text,
    },
    /// A function that runs the first child itself, where it wants to.
    Wrap {
        name: Text,
    },
    /// A function in the place of a child.
    Plain {
        name: Text,
    },
}

/// A node of a schema by its number. Its children are numbers of records, in the order of their
/// keys; the last record of a plan stands where no schema is written.
#[derive(Drop)]
pub struct Record {
    pub op: Op,
    pub children: Items<u32>,
    pub strict: bool,
    pub validate_default: bool,
}
