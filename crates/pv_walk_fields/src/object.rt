use pv_fields::{FieldPlan, Finds};
use pv_tree::Tree;

/// An object whose fields are walked: the fields and the numbers of their children, what was found of
/// them, and how many errors there were before the first field.
#[derive(Clone, Copy)]
pub(crate) struct Object<'o, 't> {
    pub(crate) plan: &'o FieldPlan,
    pub(crate) children: &'o [u32],
    pub(crate) finds: &'o Finds<'t>,
    pub(crate) tree: &'t Tree,
    pub(crate) mark: usize,
}
