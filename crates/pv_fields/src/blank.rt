ghost use Rattle.std.specs.Prelude.{◌≡◌, [], IfOk};

use pv_text::{Memory, Text};
use pv_tree::{Named, Row, Value};
use std::alloc::Global;
use std::marker::Model;

/// What models without a class and without extra members share: the empty class, and no members.
#[derive(Drop)]
pub(crate) struct Blank {
    cls: Text,
    extra: Named,
}

impl Model for Blank {
    ghost Value = { Unit {0} };

    ghost view = { λ _. tt };

    ghost invariant = { λ b. (b.cls ≡ []) × (b.extra ≡ []) };
}

impl Blank {
    pub(crate) fn new(alloc: Global) -> Result<Blank, Memory> {
        Ok(Blank {
            cls: Text::from_str(alloc, "")?,
            extra: Row::from_vec(alloc, Vec::new(alloc))?,
        })
    }

    /// The empty class.
    pub(crate) fn cls(&self, alloc: Global) -> Result<Text, Memory>
        ensures { IfOk result (λ cls. cls ≡ []) }
    {
        self.cls.share(alloc)
    }

    /// These extra members.
    pub(crate) fn extra(&self, alloc: Global, extra: Vec<(Text, Value)>) -> Result<Named, Memory>
        ensures { IfOk result (λ row. row ≡ extra.items) }
    {
        if extra.is_empty() {
            if let Some(row) = self.extra.try_share() {
                return Ok(row);
            }
        }
        Row::from_vec(alloc, extra)
    }
}
