use crate::block::Block;
use crate::memory::Memory;
use std::alloc::Global;
use std::cmp::Ordering;
use std::hash::{Hash, Hasher};
use std::marker::Model;

/// A text in UTF-8, seen as its bytes: a piece of a block that others own too, which lives as long
/// as one of them.
#[derive(Drop)]
pub struct Text {
    block: Block,
    start: u32,
    len: u32,
}

impl Model for Text {
    ghost use Rattle.std.specs.Prelude.{List, ℕ, ◌+◌, ◌≤◌, length, IsUtf8};
    ghost use Rattle.pv_text.specs.Pieces.{piece};

    ghost Value = { List ℕ };

    ghost view = { λ t. piece t.start t.len t.block };

    ghost invariant = { λ t. (t.start + t.len ≤ length t.block) × IsUtf8 (piece t.start t.len t.block) };
}

impl Text {
    ghost use Rattle.std.specs.Prelude.{◌≡◌, ◌+◌, ◌≤◌, length, IfOk, IsUtf8};
    ghost use Rattle.pv_text.specs.Pieces.{piece};

    /// The text of a whole block.
    fn from_block(block: Block) -> Text
        requires { IsUtf8 block }
        ensures { result ≡ block }
    {
        let len = block.len();
        Text {
            block,
            start: 0,
            len: len as u32,
        }
    }

    /// The `len` bytes of a block from `start` on, which are well-formed UTF-8 (RFC 3629). It is one
    /// more owner of the block, and no copy; where no further owner can be counted, memory is wanting.
    pub fn piece(block: &Block, start: usize, len: usize) -> Result<Text, Memory>
        requires within { start + len ≤ length block.now }
        requires utf8 { IsUtf8 (piece start len block.now) }
        ensures { IfOk result (λ t. t ≡ piece start len block.now) }
    {
        let _ = block.len();
        match block.share() {
            Some(block) => Ok(Text {
                block,
                start: start as u32,
                len: len as u32,
            }),
            None => Err(Memory),
        }
    }

    /// A copy of the text. One of 4 GiB or more is want of memory.
    pub fn from_str(alloc: Global, s: &str) -> Result<Text, Memory>
        ensures { IfOk result (λ t. t ≡ s.now) }
    {
        Ok(Text::from_block(Block::from_slice(alloc, s.as_bytes())?))
    }

    /// The text of these bytes, which are well-formed UTF-8 (RFC 3629). Takes the list over as it is.
    pub fn from_utf8(bytes: Vec<u8>) -> Result<Text, Memory>
        requires { IsUtf8 bytes.items }
        ensures { IfOk result (λ t. t ≡ bytes.items) }
    {
        Ok(Text::from_block(Block::from_vec(bytes)?))
    }

    fn as_bytes(&self) -> &[u8]
        ensures value { result.now ≡ self.now }
        ensures utf8 { IsUtf8 self.now }
    {
        let start = self.start as usize;
        &self.block.as_slice()[start..start + self.len as usize]
    }

    /// The text itself. Its bytes are not looked at again.
    pub fn as_str(&self) -> &str
        ensures { result.now ≡ self.now }
    {
        unsafe { str::from_utf8_unchecked(self.as_bytes()) }
    }

    /// One more owner of the same text. Where no further owner can be counted, it is a copy.
    pub fn share(&self, alloc: Global) -> Result<Text, Memory>
        ensures { IfOk result (λ t. t ≡ self.now) }
    {
        match self.block.share() {
            Some(block) => Ok(Text {
                block,
                start: self.start,
                len: self.len,
            }),
            None => Text::from_str(alloc, self.as_str()),
        }
    }
}

impl PartialEq for Text {
    ghost use Rattle.std.specs.Prelude.{bytes_eq};
    ghost use Rattle.std.specs.Cmp.Lexicographic.{nat_list_eq_equiv};
    ghost use Rattle.std.specs.Cmp.{partial_equiv_from_equiv};

    ghost eq = { bytes_eq };

    ghost laws = { partial_equiv_from_equiv nat_list_eq_equiv };

    fn eq(&self, other: &Text) -> bool {
        self.as_str() == other.as_str()
    }
}

impl Eq for Text {
    ghost use Rattle.std.specs.Cmp.Lexicographic.{nat_list_eq_equiv};

    ghost laws = { nat_list_eq_equiv };
}

impl PartialOrd for Text {
    ghost use Rattle.std.specs.Prelude.{Some};
    ghost use Rattle.std.specs.Ordering.{nat_cmp};
    ghost use Rattle.std.specs.Cmp.Lexicographic.{slice_cmp, texts_po};

    ghost partial_cmp = { λ x y. Some (slice_cmp nat_cmp x y) };

    ghost laws = { texts_po };

    fn partial_cmp(&self, other: &Text) -> Option<Ordering> {
        Some(self.cmp(other))
    }
}

/// The order of the bytes, which is that of the characters.
impl Ord for Text {
    ghost use Rattle.std.specs.Prelude.{refl};
    ghost use Rattle.std.specs.Ordering.{nat_cmp};
    ghost use Rattle.std.specs.Cmp.Lexicographic.{slice_cmp, nat_list_cmp_total, texts_ties};

    ghost cmp = { slice_cmp nat_cmp };

    ghost total = { nat_list_cmp_total };

    ghost matches_partial_cmp = { λ x y. refl };

    ghost matches_eq = { λ x y. texts_ties x y };

    fn cmp(&self, other: &Text) -> Ordering {
        self.as_str().cmp(other.as_str())
    }
}

impl Hash for Text {
    ghost use Rattle.std.specs.Hash as fed;
    ghost use Rattle.std.specs.Cmp.Rules.{hashing};
    ghost use Rattle.std.proofs.Common.{rules};

    ghost hash_input = { fed.str };

    ghost respects_eq = { Prim.search (hashing, rules) };

    fn hash<H: Hasher>(&self, state: &mut H) {
        self.as_str().hash(state);
    }
}

const _: () = prove!(size_of::<Text>() == 16);
