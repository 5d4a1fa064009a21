use crate::memory::Memory;
use std::alloc::Global;
use std::marker::Model;

/// Bytes of any kind, as a file holds them.
#[derive(Drop)]
pub struct Bytes {
    items: Vec<u8>,
}

impl Model for Bytes {
    ghost use Rattle.std.specs.Prelude.{List, ℕ};

    ghost Value = { List ℕ };

    ghost view = { λ b. b.items.items };
}

impl Bytes {
    ghost use Rattle.std.specs.Prelude.{◌≡◌, IfOk};

    /// A copy of these bytes.
    pub fn from_slice(alloc: Global, b: &[u8]) -> Result<Bytes, Memory>
        ensures { IfOk result (λ bytes. bytes ≡ b.now) }
    {
        Ok(Bytes {
            items: Vec::from_slice(alloc, b)?,
        })
    }

    /// Takes the list over as it is.
    pub fn from_vec(items: Vec<u8>) -> Bytes
        ensures { result ≡ items.items }
    {
        Bytes { items }
    }

    /// The bytes in their order.
    pub fn as_slice(&self) -> &[u8]
        ensures { result.now ≡ self.now }
    {
        self.items.as_slice()
    }
}
