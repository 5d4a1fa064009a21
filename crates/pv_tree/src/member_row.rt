ghost use Rattle.pv_tree.specs.Names.{HasDistinctNames, names_prop};

use pv_text::{Memory, Text};
use std::alloc::Global;
use std::marker::Model;
use std::rc::Rc;

/// Members in the order of their places, each name once. Several owners share one copy of them.
#[derive(Drop)]
pub struct MemberRow<T> {
    inner: Rc<Vec<(Text, T)>>,
    ghost distinct: { HasDistinctNames inner.value.items } by { names_prop inner.value.items },
}

impl<T> Model for MemberRow<T> {
    ghost use Rattle.pv_tree.specs.Names.{Distinct, distinct_code};

    ghost Value = { Distinct T };

    ghost coded = { distinct_code T.code };

    ghost view = { λ r. record { members = r.inner.value.items; distinct = r.distinct } };
}

impl<T: Drop> MemberRow<T> {
    ghost use Rattle.std.specs.Prelude.{◌≡◌, IfOk, IfSome};
    ghost use Rattle.pv_tree.specs.Names.{HasDistinctNames};

    /// Takes the list over as it is, and gives the room back that it does not need.
    pub(crate) fn from_vec(
        alloc: Global,
        mut members: Vec<(Text, T)>,
    ) -> Result<MemberRow<T>, Memory>
        requires { HasDistinctNames members.items }
        ensures { IfOk result (λ r. r.members ≡ members.items) }
    {
        members.shrink_to_fit();
        Ok(MemberRow {
            inner: Rc::new(alloc, members)?,
        })
    }

    /// One more owner of the same members. It is `None` where no further owner can be counted.
    pub fn try_share(&self) -> Option<MemberRow<T>>
        ensures { IfSome result (λ r. r ≡ self.now) }
    {
        match self.inner.clone() {
            Ok(inner) => Some(MemberRow { inner }),
            Err(_) => None,
        }
    }
}

impl<T> MemberRow<T> {
    ghost use Rattle.std.specs.Prelude.{◌≡◌, ◌<◌, length, slice_get, OnSome};
    ghost use Rattle.std.specs.Option.{option_copied};
    ghost use Rattle.pv_tree.specs.Names.{HasDistinctNames};

    /// How many members there are.
    pub fn len(&self) -> usize
        ensures { result ≡ length self.now.members }
    {
        self.inner.as_ref().len()
    }

    /// `None` exactly where `place` is not below the length.
    pub fn get(&self, place: usize) -> Option<&(Text, T)>
        ensures value { option_copied result ≡ slice_get self.now.members place }
        ensures within { OnSome result (place < length self.now.members) }
    {
        self.inner.as_ref().get(place)
    }

    /// The members in their order.
    pub fn as_slice(&self) -> &[(Text, T)]
        ensures value { result.now ≡ self.now.members }
        ensures distinct { HasDistinctNames result.now }
    {
        self.inner.as_ref().as_slice()
    }
}
