//! Members whose names ascend in some order, so that no name is repeated.

ghost use Rattle.std.specs.Prelude.{◌≡◌};
ghost use Rattle.std.specs.Bool.{OnTrue};
ghost use Rattle.std.specs.Ordering.{is_lt};
ghost use Rattle.pv_tree.specs.Merging.{merged};
ghost use Rattle.pv_tree.specs.NameOrders.{order_of};

use pv_text::Text;
use std::cmp::Ordering;

/// An order in which a document's names may stand.
#[derive(Clone, Copy)]
pub(crate) enum NameOrder {
    ByBytes,
    /// A shorter name comes before a longer one; names of one length stand by their bytes.
    ByLength,
}

impl NameOrder {
    fn compare(self, name: &Text, other: &Text) -> Ordering
        ensures { result ≡ order_of self name.now other.now }
    {
        match self {
            NameOrder::ByBytes => name.cmp(other),
            NameOrder::ByLength => match name.as_str().len().cmp(&other.as_str().len()) {
                Ordering::Less => Ordering::Less,
                Ordering::Equal => name.cmp(other),
                Ordering::Greater => Ordering::Greater,
            },
        }
    }
}

/// Whether each name comes before the next one.
#[tactic(auto, using(crate::proofs::Ascending::whole))]
pub(crate) fn are_ascending<V>(order: NameOrder, members: &[(Text, V)]) -> bool
    ensures { OnTrue result (merged members.now ≡ members.now) }
{
    for place in 1..members.len() {
        if !order
            .compare(&members[place - 1].0, &members[place].0)
            .is_lt()
        {
            return false;
        }
    }
    true
}
