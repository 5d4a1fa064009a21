ghost use Rattle.std.specs.Prelude.{◌≡◌, ◌<◌, length, slice_get, IfOk, IfSome, OnSome};
ghost use Rattle.std.specs.Option.{option_copied};

use pv_text::Memory;
use std::alloc::Global;
use std::marker::Model;
use std::rc::Rc;

/// A list with several owners, who share one copy of it, seen as the list.
#[derive(Drop)]
pub struct Row<T> {
    inner: Rc<Vec<T>>,
}

impl<T> Model for Row<T> {
    ghost use Rattle.std.specs.Prelude.{List};
    ghost use Rattle.std.specs.Coded.{coded_list};

    ghost Value = { List T };

    ghost coded = { coded_list T.code };

    ghost view = { λ r. r.inner.value.items };
}

impl<T: Drop> Row<T> {
    /// Takes the list over as it is, and gives the room back that it does not need.
    pub fn from_vec(alloc: Global, mut items: Vec<T>) -> Result<Row<T>, Memory>
        ensures { IfOk result (λ r. r ≡ items.items) }
    {
        items.shrink_to_fit();
        Ok(Row {
            inner: Rc::new(alloc, items)?,
        })
    }

    /// One more owner of the same list. It is `None` where no further owner can be counted.
    pub fn try_share(&self) -> Option<Row<T>>
        ensures { IfSome result (λ r. r ≡ self.now) }
    {
        match self.inner.clone() {
            Ok(inner) => Some(Row { inner }),
            Err(_) => None,
        }
    }
}

impl<T> Row<T> {
    /// How many items there are.
    pub fn len(&self) -> usize
        ensures { result ≡ length self.now }
    {
        self.inner.as_ref().len()
    }

    /// `None` exactly where `place` is not below the length.
    pub fn get(&self, place: usize) -> Option<&T>
        ensures value { option_copied result ≡ slice_get self.now place }
        ensures within { OnSome result (place < length self.now) }
    {
        self.inner.as_ref().get(place)
    }

    /// The items in their order.
    pub fn as_slice(&self) -> &[T]
        ensures { result.now ≡ self.now }
    {
        self.inner.as_ref().as_slice()
    }
}
