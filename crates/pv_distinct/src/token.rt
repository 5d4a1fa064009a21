//! The parts of keys, and their order.

ghost use Rattle.std.specs.Prelude.{◌≡◌};
ghost use Rattle.std.specs.Option.{option_copied};
ghost use Rattle.pv_number.specs.NumberEquality.{int_number, number_cmp};
ghost use Rattle.std.specs.Ordering.{ordering_then};
ghost use Rattle.pv_number.specs.ExactNumber.{number};
ghost use Rattle.pv_distinct.specs.Tokens as spec;

use pv_number::{Lexeme, compare, compare_int};
use pv_text::{Bytes, Text};
use pv_tree::AtomKind;
use std::cmp::Ordering;

/// A part of a key: a value that holds no others, the start of one that does, or a mark between or behind values.
#[derive(Drop)]
pub enum Token {
    None,
    Int(i128),
    Lexeme(Lexeme),
    Str(Text),
    Bytes(Bytes),
    Atom(AtomKind, Text),
    /// Class and name.
    Enum(Text, Text),
    List,
    Tuple,
    Set,
    Dict,
    Model(Text),
    Root(Text),
    /// Behind an item of a set, an entry or a field, whose name it is.
    Name(Text),
    Open,
    End,
}

impl Token {
    fn kind(&self) -> u8
        ensures { result ≡ spec.token_kind self.now }
    {
        match self {
            Token::None => 0,
            Token::Int(_) => 1,
            Token::Lexeme(_) => 1,
            Token::Str(_) => 2,
            Token::Bytes(_) => 3,
            Token::Atom(_, _) => 4,
            Token::Enum(_, _) => 5,
            Token::List => 6,
            Token::Tuple => 7,
            Token::Set => 8,
            Token::Dict => 9,
            Token::Model(_) => 10,
            Token::Root(_) => 11,
            Token::Name(_) => 12,
            Token::Open => 13,
            Token::End => 14,
        }
    }

    /// Whether the tokens of parts follow, and then `End`.
    pub fn opens(&self) -> bool
        ensures { result ≡ spec.opens self.now }
    {
        match self {
            Token::Enum(_, _)
            | Token::List
            | Token::Tuple
            | Token::Set
            | Token::Dict
            | Token::Model(_)
            | Token::Root(_) => true,
            Token::None
            | Token::Int(_)
            | Token::Lexeme(_)
            | Token::Str(_)
            | Token::Bytes(_)
            | Token::Atom(_, _)
            | Token::Name(_)
            | Token::Open
            | Token::End => false,
        }
    }

    fn lexeme(&self) -> Option<&Lexeme>
        ensures { option_copied result ≡ spec.token_lexeme self.now }
    {
        match self {
            Token::Lexeme(lexeme) => Some(lexeme),
            _ => None,
        }
    }

    fn int(&self) -> i128
        ensures { result ≡ spec.token_int self.now }
    {
        match self {
            Token::Int(n) => *n,
            _ => 0,
        }
    }

    fn first(&self) -> &[u8]
        ensures { result.now ≡ spec.token_first self.now }
    {
        match self {
            Token::Str(text) => text.as_str().as_bytes(),
            Token::Bytes(bytes) => bytes.as_slice(),
            Token::Atom(_, text) => text.as_str().as_bytes(),
            Token::Enum(cls, _) => cls.as_str().as_bytes(),
            Token::Model(cls) => cls.as_str().as_bytes(),
            Token::Root(cls) => cls.as_str().as_bytes(),
            Token::Name(name) => name.as_str().as_bytes(),
            _ => b"",
        }
    }

    fn second(&self) -> &[u8]
        ensures { result.now ≡ spec.token_second self.now }
    {
        match self {
            Token::Atom(AtomKind::Uuid, _) => b"\x00",
            Token::Atom(AtomKind::Url, _) => b"\x01",
            Token::Atom(AtomKind::Date, _) => b"\x02",
            Token::Atom(AtomKind::Time, _) => b"\x03",
            Token::Atom(AtomKind::DateTime, _) => b"\x04",
            Token::Atom(AtomKind::Decimal, _) => b"\x05",
            Token::Enum(_, name) => name.as_str().as_bytes(),
            _ => b"",
        }
    }
}

#[tactic(auto, using(crate::proofs::Numbers::ints_compared))]
fn compare_ints(m: i128, n: i128) -> Ordering
    ensures { result ≡ number_cmp (int_number m) (int_number n) }
{
    m.cmp(&n)
}

#[tactic(auto, using(crate::proofs::Numbers::reversed))]
fn compare_to_lexeme(n: i128, lexeme: &Lexeme) -> Ordering
    ensures { result ≡ number_cmp (int_number n) (number lexeme.now) }
{
    compare_int(lexeme, n).reverse()
}

fn compare_numbers(a: &Token, b: &Token) -> Ordering
    ensures { result ≡ number_cmp (spec.token_number a.now) (spec.token_number b.now) }
{
    match (a.lexeme(), b.lexeme()) {
        (Some(x), Some(y)) => compare(x, y),
        (Some(x), None) => compare_int(x, b.int()),
        (None, Some(y)) => compare_to_lexeme(a.int(), y),
        (None, None) => compare_ints(a.int(), b.int()),
    }
}

fn compare_texts(a: &Token, b: &Token) -> Ordering
    ensures { result ≡ ordering_then (spec.bytes_cmp (spec.token_first a.now) (spec.token_first b.now)) (spec.bytes_cmp (spec.token_second a.now) (spec.token_second b.now)) }
{
    match a.first().cmp(&b.first()) {
        Ordering::Less => Ordering::Less,
        Ordering::Equal => a.second().cmp(&b.second()),
        Ordering::Greater => Ordering::Greater,
    }
}

fn compare_contents(a: &Token, b: &Token) -> Ordering
    ensures { result ≡ spec.contents_cmp a.now b.now }
{
    match compare_numbers(a, b) {
        Ordering::Less => Ordering::Less,
        Ordering::Equal => compare_texts(a, b),
        Ordering::Greater => Ordering::Greater,
    }
}

#[tactic(auto, unfolding(crate::specs::Tokens::token_cmp))]
fn compare_tokens(a: &Token, b: &Token) -> Ordering
    ensures { result ≡ spec.token_cmp a.now b.now }
{
    match a.kind().cmp(&b.kind()) {
        Ordering::Less => Ordering::Less,
        Ordering::Equal => compare_contents(a, b),
        Ordering::Greater => Ordering::Greater,
    }
}

impl PartialEq for Token {
    ghost use Rattle.std.specs.Ordering.{eq_by_cmp};
    ghost use Rattle.pv_distinct.specs.Tokens.{token_cmp};
    ghost use Rattle.pv_distinct.specs.TokenOrder.{tokens_total};
    ghost use Rattle.std.specs.Cmp.{eq_by_cmp_equiv};
    ghost use Rattle.std.specs.Cmp.{partial_equiv_from_equiv};

    ghost eq = { eq_by_cmp token_cmp };

    ghost laws = { partial_equiv_from_equiv (eq_by_cmp_equiv tokens_total) };

    fn eq(&self, other: &Token) -> bool {
        self.cmp(other).is_eq()
    }
}

impl Eq for Token {
    ghost use Rattle.pv_distinct.specs.TokenOrder.{tokens_total};
    ghost use Rattle.std.specs.Cmp.{eq_by_cmp_equiv};

    ghost laws = { eq_by_cmp_equiv tokens_total };
}

impl Ord for Token {
    ghost use Rattle.pv_distinct.specs.Tokens.{token_cmp};
    ghost use Rattle.pv_distinct.specs.TokenOrder.{tokens_total};
    ghost use Rattle.std.specs.Prelude.{refl};

    ghost cmp = { token_cmp };

    ghost total = { tokens_total };

    ghost matches_partial_cmp = { λ x y. refl };

    ghost matches_eq = { λ x y. refl };

    #[tactic(auto, using(crate::proofs::Alone::int_tokens, crate::proofs::Alone::text_tokens))]
    fn cmp(&self, other: &Token) -> Ordering {
        match (self, other) {
            (Token::Int(m), Token::Int(n)) => m.cmp(n),
            (Token::Str(text), Token::Str(other_text)) => text.cmp(other_text),
            _ => compare_tokens(self, other),
        }
    }
}

impl PartialOrd for Token {
    ghost use Rattle.std.specs.Ordering.{as_partial_cmp};
    ghost use Rattle.pv_distinct.specs.Tokens.{token_cmp};
    ghost use Rattle.pv_distinct.specs.TokenOrder.{tokens_total};
    ghost use Rattle.std.specs.Cmp.{partial_order_from_total};

    ghost partial_cmp = { as_partial_cmp token_cmp };

    ghost laws = { partial_order_from_total tokens_total };

    fn partial_cmp(&self, other: &Token) -> Option<Ordering> {
        Some(self.cmp(other))
    }
}
