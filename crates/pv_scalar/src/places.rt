//! The first places of values in a list.

ghost use Rattle.std.specs.Prelude.{◌≡◌, ℤ, ℕ, List, bytes_eq, Some, None, if◌then◌else◌, OnOk, IfOk, take};
ghost use Rattle.std.specs.Option.{option_or};
ghost use Rattle.std.specs.Ordering.{int_eq};
ghost use Rattle.std.specs.HashMap.{get};
ghost use Rattle.pv_scalar.specs.Places.{KeepsPlaces, NotesPlace};

use pv_rules::Literal;
use pv_text::{Memory, Text};
use std::alloc::Global;
use std::collections::HashMap;

/// The first place of each value.
#[derive(Drop)]
pub(crate) struct Places {
    pub(crate) null: Option<usize>,
    pub(crate) yes: Option<usize>,
    pub(crate) no: Option<usize>,
    pub(crate) ints: HashMap<i128, usize>,
    pub(crate) texts: HashMap<Text, usize>,
}

fn note_int(ints: &mut HashMap<i128, usize>, n: i128, place: usize) -> Result<(), Memory>
    ensures { OnOk result ((q : ℤ) → get int_eq ints.new q ≡ option_or (get int_eq ints.old q) (if int_eq n q then Some place else None)) }
{
    if ints.contains_key(&n) {
        return Ok(());
    }
    ints.insert(n, place)?;
    Ok(())
}

fn note_text(texts: &mut HashMap<Text, usize>, text: Text, place: usize) -> Result<(), Memory>
    ensures { OnOk result ((q : List ℕ) → get bytes_eq texts.new q ≡ option_or (get bytes_eq texts.old q) (if bytes_eq text q then Some place else None)) }
{
    if !texts.contains_key(&text) {
        texts.insert(text, place)?;
    }
    Ok(())
}

fn note(alloc: Global, places: &mut Places, value: &Literal, place: usize) -> Result<(), Memory>
    ensures { OnOk result (NotesPlace places.old places.new value.now place) }
{
    match value {
        Literal::Null => places.null = places.null.or(Some(place)),
        Literal::Flag(true) => places.yes = places.yes.or(Some(place)),
        Literal::Flag(false) => places.no = places.no.or(Some(place)),
        Literal::Int(n) => note_int(&mut places.ints, *n, place)?,
        Literal::Text(text) => note_text(&mut places.texts, text.share(alloc)?, place)?,
    }
    Ok(())
}

/// The places of the values of a list.
pub(crate) fn places_of(alloc: Global, values: &[Literal]) -> Result<Places, Memory>
    ensures { IfOk result (λ places. KeepsPlaces places values.now) }
{
    let mut places = Places {
        null: None,
        yes: None,
        no: None,
        ints: HashMap::new(alloc),
        texts: HashMap::new(alloc),
    };
    for (place, value) in values.iter().enumerate() {
        note(alloc, &mut places, value, place)?;
    }
    Ok(places)
}
