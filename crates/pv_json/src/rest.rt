use pv_number::Lexeme;
use pv_text::{Block, Memory, Text};
use std::marker::Model;

/// The last bytes of a block: what is left of a document that is read, seen as the list of them.
#[derive(Drop)]
pub(crate) struct Rest<'a> {
    block: &'a Block,
    bytes: &'a [u8],
}

impl<'a> Model for Rest<'a> {
    ghost use Rattle.std.specs.Prelude.{List, ℕ};
    ghost use Rattle.pv_json.specs.Ends.{IsEnd};

    ghost Value = { List ℕ };

    ghost view = { λ r. r.bytes.now };

    ghost invariant = { λ r. IsEnd r.bytes.now r.block.now };
}

impl<'a> Rest<'a> {
    ghost use Rattle.std.specs.Prelude.{◌≡◌, ◌≤◌, length, take, drop, IfOk, IsUtf8};
    ghost use Rattle.pv_number.specs.Grammar.{IsNumber};

    /// The whole block.
    pub(crate) fn new(block: &'a Block) -> Rest<'a>
        ensures { result ≡ block.now }
    {
        Rest {
            block,
            bytes: block.as_slice(),
        }
    }

    pub(crate) fn as_slice(&self) -> &'a [u8]
        ensures { result.now ≡ self.now }
    {
        self.bytes
    }

    pub(crate) fn len(&self) -> usize
        ensures { result ≡ length self.now }
    {
        self.bytes.len()
    }

    /// What follows the first `len` bytes.
    #[tactic(auto, using(crate::proofs::EndLaws::end_after))]
    pub(crate) fn after(&self, len: usize) -> Rest<'a>
        requires { len ≤ length self.now }
        ensures { result ≡ drop len self.now }
    {
        Rest {
            block: self.block,
            bytes: &self.bytes[len..],
        }
    }

    /// The first `len` bytes, which are a text. They are a piece of the block.
    pub(crate) fn text(&self, len: usize) -> Result<Text, Memory>
        requires within { len ≤ length self.now }
        requires utf8 { IsUtf8 (take len self.now) }
        ensures { IfOk result (λ t. t ≡ take len self.now) }
    {
        Text::piece(self.block, self.block.len() - self.bytes.len(), len)
    }

    /// The first `len` bytes, which are a number. They are a piece of the block.
    pub(crate) fn number(&self, len: usize) -> Result<Lexeme, Memory>
        requires within { len ≤ length self.now }
        requires number { IsNumber (take len self.now) }
        ensures { IfOk result (λ l. l ≡ take len self.now) }
    {
        Lexeme::piece(self.block, self.block.len() - self.bytes.len(), len)
    }
}
