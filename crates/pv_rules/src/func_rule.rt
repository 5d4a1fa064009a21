use pv_text::Text;

/// The function that a node names.
#[derive(Drop)]
pub struct FuncRule {
    pub function: Text,
}
