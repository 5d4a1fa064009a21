use crate::scanning::is_number;
use pv_text::{Block, Memory};
use std::alloc::Global;
use std::marker::Model;
use thiserror::Error;

/// Why bytes are no lexeme.
#[derive(Clone, Copy, Debug, PartialEq, Eq, Error)]
pub enum LexemeFault {
    #[error("no JSON number")]
    NotNumber,
    #[error("out of memory")]
    Memory,
}

/// The spelling of a JSON number (RFC 8259, section 6), seen as its bytes: a piece of a block that
/// others own too, which lives as long as one of them.
#[derive(Drop)]
pub struct Lexeme {
    block: Block,
    start: u32,
    len: u32,
}

impl Model for Lexeme {
    ghost use Rattle.std.specs.Prelude.{List, ℕ, ◌+◌, ◌≤◌, length, IsTrue};
    ghost use Rattle.pv_text.specs.Pieces.{piece};
    ghost use Rattle.pv_number.specs.Scanning.{is_number};

    ghost Value = { List ℕ };

    ghost view = { λ l. piece l.start l.len l.block };

    ghost invariant = { λ l. (l.start + l.len ≤ length l.block)
        × IsTrue (is_number (piece l.start l.len l.block)) };
}

impl Lexeme {
    ghost use Rattle.std.specs.Prelude.{◌≡◌, ◌+◌, ◌≤◌, length, false, IfOk, OnOk, IsErrOf, IsTrue, ◌↔◌};
    ghost use Rattle.pv_text.specs.Pieces.{piece};
    ghost use Rattle.pv_number.specs.Scanning as spec;
    ghost use Rattle.pv_number.specs.Grammar.{IsNumber};

    /// The `len` bytes of a block from `start` on, which are a number. It is one more owner of the
    /// block, and no copy; where no further owner can be counted, memory is wanting.
    #[tactic(auto, using(crate::proofs::Completeness::is_number_complete))]
    pub fn piece(block: &Block, start: usize, len: usize) -> Result<Lexeme, Memory>
        requires within { start + len ≤ length block.now }
        requires number { IsNumber (piece start len block.now) }
        ensures { IfOk result (λ l. l ≡ piece start len block.now) }
    {
        let _ = block.len();
        match block.share() {
            Some(block) => Ok(Lexeme {
                block,
                start: start as u32,
                len: len as u32,
            }),
            None => Err(Memory),
        }
    }

    /// A copy of these bytes, which are a number. One of 4 GiB or more is want of memory.
    #[tactic(auto, using(crate::proofs::Completeness::is_number_complete))]
    pub fn from_number(alloc: Global, b: &[u8]) -> Result<Lexeme, Memory>
        requires { IsNumber b.now }
        ensures { IfOk result (λ l. l ≡ b.now) }
    {
        let block = Block::from_slice(alloc, b)?;
        let len = block.len();
        Ok(Lexeme {
            block,
            start: 0,
            len: len as u32,
        })
    }

    /// A copy of these bytes, where they are a JSON number (RFC 8259, section 6) and nothing else.
    #[tactic(auto, using(crate::proofs::Soundness::is_number_sound, crate::proofs::Completeness::is_number_complete))]
    pub fn from_slice(alloc: Global, b: &[u8]) -> Result<Lexeme, LexemeFault>
        ensures value { IfOk result (λ l. l ≡ b.now) }
        ensures number { OnOk result (IsNumber b.now) }
        ensures scanned { OnOk result (IsTrue (spec.is_number b.now)) }
        ensures refused { IsErrOf result LexemeFault.NotNumber ↔ ¬ IsNumber b.now }
        ensures unscanned { IsErrOf result LexemeFault.NotNumber ↔ (spec.is_number b.now ≡ false) }
    {
        if !is_number(b) {
            return Err(LexemeFault::NotNumber);
        }
        Lexeme::from_number(alloc, b).map_err(|_| LexemeFault::Memory)
    }

    /// The bytes as they were written.
    #[tactic(auto, using(crate::proofs::Soundness::is_number_sound))]
    pub fn as_slice(&self) -> &[u8]
        ensures value { result.now ≡ self.now }
        ensures number { IsNumber result.now }
        ensures scanned { IsTrue (spec.is_number result.now) }
    {
        let start = self.start as usize;
        &self.block.as_slice()[start..start + self.len as usize]
    }

    /// One more owner of the same lexeme. Where no further owner can be counted, it is a copy.
    pub fn share(&self, alloc: Global) -> Result<Lexeme, Memory>
        ensures { IfOk result (λ l. l ≡ self.now) }
    {
        match self.block.share() {
            Some(block) => Ok(Lexeme {
                block,
                start: self.start,
                len: self.len,
            }),
            None => Lexeme::from_number(alloc, self.as_slice()),
        }
    }
}

const _: () = prove!(size_of::<Lexeme>() == 16);
