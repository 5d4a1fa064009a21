//! The values that members and names stand for.

ghost use Rattle.std.specs.Prelude.{◌≡◌, map, IfOk};
ghost use Rattle.pv_scalar.specs.Literals.{enum_value};

use pv_rules::{EnumMember, Literal};
use pv_text::{Memory, Text};
use sqlite_items::Items;
use std::alloc::Global;

/// The values of members.
pub(crate) fn values_of(alloc: Global, members: &[EnumMember]) -> Result<Items<Literal>, Memory>
    ensures { IfOk result (λ all. all ≡ map enum_value members.now) }
{
    let mut all = Vec::with_capacity(alloc, members.len())?;
    for member in members {
        let value = member.value.copy(alloc)?;
        all.push(value)?;
    }
    Ok(Items::from_vec(all))
}

/// Texts as values.
pub(crate) fn text_literals(alloc: Global, names: &[Text]) -> Result<Items<Literal>, Memory>
    ensures { IfOk result (λ all. all ≡ map Literal.Text names.now) }
{
    let mut all = Vec::with_capacity(alloc, names.len())?;
    for name in names {
        all.push(Literal::Text(name.share(alloc)?))?;
    }
    Ok(Items::from_vec(all))
}
