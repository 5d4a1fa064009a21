use pv_text::Text;

/// A value that a schema names.
#[derive(Drop)]
pub enum Literal {
    Null,
    Flag(bool),
    Int(i128),
    Text(Text),
}

/// A member of an enum: its name and its value, an int or a text.
#[derive(Drop)]
pub struct EnumMember {
    pub name: Text,
    pub value: Literal,
}
