//! Wordings of the shapes that several kinds of errors share.

ghost use Rattle.std.specs.Prelude.{◌≡◌, ◌++◌, if◌then◌else◌, ◌==◌, [], codes};
ghost use Rattle.std.specs.Fmt.{decimal};
ghost use Rattle.pv_fault.specs.Table.{without_context, about, counted, sized, tag_unknown};
ghost use Rattle.pv_fault.specs.Wordings.{piece_text, piece_json, members_of, printed_by};

use crate::pieces::{Context, Member, Piece, Wording};
use itoa::Buffer;

const NO_TEXT: Piece<'static> = Piece::Text("");

const NO_MEMBER: Member<'static> = Member {
    key: "",
    value: NO_TEXT,
};

impl<'a> Piece<'a> {
    pub(crate) fn as_str(&'a self, buffer: &'a mut Buffer) -> &'a str
        ensures { result.now ≡ piece_text self.now }
    {
        match self {
            Piece::Text(text) => text,
            Piece::Number(n) => buffer.format(*n),
            Piece::Count(n) => buffer.format(*n),
        }
    }
}

impl<'a> Context<'a> {
    pub(crate) fn as_slice(&self) -> &[Member<'a>]
        ensures { result.now ≡ members_of self.now }
    {
        &self.members[..self.len]
    }
}

/// What the word for a count of things ends with: "1 item", but "2 items".
fn ending(count: u64) -> &'static str
    ensures { result.now ≡ (if count == 1 then [] else codes "s") }
{
    if count == 1 { "" } else { "s" }
}

/// A message without a context.
pub(crate) fn plain<'a>(name: &'a str, message: &'a str) -> Wording<'a>
    ensures { printed_by result ≡ without_context name.now message.now }
{
    Wording {
        name,
        message: [
            Piece::Text(message),
            NO_TEXT,
            NO_TEXT,
            NO_TEXT,
            NO_TEXT,
            NO_TEXT,
            NO_TEXT,
        ],
        context: Context {
            members: [NO_MEMBER, NO_MEMBER, NO_MEMBER],
            len: 0,
        },
    }
}

/// A message about one value, which is its context too, between two texts.
pub(crate) fn around<'a>(
    name: &'a str,
    before: &'a str,
    key: &'a str,
    value: Piece<'a>,
    after: &'a str,
) -> Wording<'a>
    ensures { printed_by result ≡ about name.now (before.now ++ (piece_text value.entry ++ after.now)) key.now (piece_json value.entry) }
{
    Wording {
        name,
        message: [
            Piece::Text(before),
            value,
            Piece::Text(after),
            NO_TEXT,
            NO_TEXT,
            NO_TEXT,
            NO_TEXT,
        ],
        context: Context {
            members: [Member { key, value }, NO_MEMBER, NO_MEMBER],
            len: 1,
        },
    }
}

/// A message that ends with one value, which is its context too.
pub(crate) fn ending_in<'a>(
    name: &'a str,
    before: &'a str,
    key: &'a str,
    value: Piece<'a>,
) -> Wording<'a>
    ensures { printed_by result ≡ about name.now (before.now ++ piece_text value.entry) key.now (piece_json value.entry) }
{
    around(name, before, key, value, "")
}

/// A message that ends with a bound on a length. The word for what is counted begins with a space.
pub(crate) fn length<'a>(
    name: &'a str,
    before: &'a str,
    key: &'a str,
    bound: u64,
    word: &'a str,
) -> Wording<'a>
    ensures { printed_by result ≡ about name.now (before.now ++ counted bound word.now) key.now (decimal bound) }
{
    let value = Piece::Count(bound);
    Wording {
        name,
        message: [
            Piece::Text(before),
            value,
            Piece::Text(word),
            Piece::Text(ending(bound)),
            NO_TEXT,
            NO_TEXT,
            NO_TEXT,
        ],
        context: Context {
            members: [Member { key, value }, NO_MEMBER, NO_MEMBER],
            len: 1,
        },
    }
}

/// A collection of the wrong length.
#[tactic(auto, unfolding(crate::specs::Table::sized))]
pub(crate) fn sized<'a>(
    name: &'a str,
    field_type: &'a str,
    should_have: &'a str,
    key: &'a str,
    bound: u64,
    actual: u64,
) -> Wording<'a>
    ensures { printed_by result ≡ sized name.now field_type.now should_have.now key.now bound actual }
{
    let value = Piece::Count(bound);
    let actual = Piece::Count(actual);
    Wording {
        name,
        message: [
            Piece::Text(field_type),
            Piece::Text(should_have),
            value,
            Piece::Text(" item"),
            Piece::Text(ending(bound)),
            Piece::Text(" after validation, not "),
            actual,
        ],
        context: Context {
            members: [
                Member {
                    key: "field_type",
                    value: Piece::Text(field_type),
                },
                Member { key, value },
                Member {
                    key: "actual_length",
                    value: actual,
                },
            ],
            len: 3,
        },
    }
}

/// A tag that no choice has.
#[tactic(auto, unfolding(crate::specs::Table::tag_unknown))]
pub(crate) fn tag_unknown<'a>(
    discriminator: &'a str,
    tag: &'a str,
    expected_tags: &'a str,
) -> Wording<'a>
    ensures { printed_by result ≡ tag_unknown discriminator.now tag.now expected_tags.now }
{
    Wording {
        name: "union_tag_invalid",
        message: [
            Piece::Text("Input tag '"),
            Piece::Text(tag),
            Piece::Text("' found using "),
            Piece::Text(discriminator),
            Piece::Text(" does not match any of the expected tags: "),
            Piece::Text(expected_tags),
            NO_TEXT,
        ],
        context: Context {
            members: [
                Member {
                    key: "discriminator",
                    value: Piece::Text(discriminator),
                },
                Member {
                    key: "tag",
                    value: Piece::Text(tag),
                },
                Member {
                    key: "expected_tags",
                    value: Piece::Text(expected_tags),
                },
            ],
            len: 3,
        },
    }
}
