use pv_tree::Tree;

/// Where the value of a field was found: at the end of the path of this number, or nowhere.
#[derive(Clone, Copy)]
pub enum Found<'a> {
    At { path: usize, tree: &'a Tree },
    Missing,
}
