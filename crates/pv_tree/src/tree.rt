use crate::member_row::MemberRow;
use crate::row::Row;
use pv_number::Lexeme;
use pv_text::Text;

/// The items of an array.
pub type Trees = Row<Tree>;

/// The members of an object in the order of their places, each name once.
pub type Members = MemberRow<Tree>;

/// A JSON document. Its owners share the texts, the lexemes and the lists in it.
#[derive(Drop)]
pub enum Tree {
    Null,
    Bool(bool),
    Num(Lexeme),
    Str(Text),
    Array(Trees),
    Object(Members),
}

const _: () = prove!(size_of::<Tree>() == 24);
