ghost use Rattle.std.specs.Prelude.{◌≡◌, ◌==◌, ℕ, ◌<◌, IfOk, OnOk, Some, None, if◌then◌else◌, length, slice_index_or, slice_set};
ghost use Rattle.std.specs.List.{find};
ghost use Rattle.std.specs.Option.{option_copied, option_or};
ghost use Rattle.std.specs.Vec.{vec_len};
ghost use Rattle.mst_view.specs.Places.{ArePlaces, place_in};

use std::alloc::{AllocError, Global};
use std::marker::Model;

/// Something that has a number.
pub trait Numbered {
    ghost number: { Self → ℕ };

    fn number(&self) -> usize
        ensures { result ≡ number self.now };
}

/// A list whose elements are found by their numbers, in a time that doesn't grow with it.
pub struct Listed<T: Numbered> {
    items: Vec<T>,
    // The place of the first element of each number, by the number: records have small ones.
    places: Vec<Option<usize>>,
}

// By hand, as a view's.
impl<T: Numbered + Drop> Drop for Listed<T> {
    fn drop(self) {
        let Listed {
            items: _,
            places: _,
        } = self;
    }
}

impl<T: Numbered> Model for Listed<T> {
    ghost use Rattle.std.specs.Prelude.{List};

    ghost Value = { List T };

    ghost view = { λ l. l.items.items };

    ghost use Rattle.mst_view.specs.Places.{ArePlaces, place_in};

    ghost invariant = { λ l. ArePlaces T.number l.items.items (place_in l.places.items) };
}

impl<T: Numbered> Listed<T> {
    /// These elements.
    pub fn new(alloc: Global, items: Vec<T>) -> Result<Listed<T>, AllocError>
    where
        T: Drop,
        ensures { IfOk result (λ listed. listed ≡ items.items) }
    {
        let places = places(alloc, items.as_slice())?;
        Ok(Listed { items, places })
    }

    /// How many elements there are.
    pub fn len(&self) -> usize
        ensures { result ≡ length self.now }
    {
        self.items.len()
    }

    /// Puts an element at this place, where one with the same number is.
    pub fn write(&mut self, place: usize, item: T)
    where
        T: Drop,
        requires within { place < length self.old }
        requires number { T.number item ≡ T.number (slice_index_or self.old place item) }
        ensures { self.new ≡ slice_set self.old place item }
    {
        self.items[place] = item;
    }

    /// The elements, in their order.
    pub fn as_slice(&self) -> &[T]
        ensures { result.now ≡ self.now }
    {
        self.items.as_slice()
    }

    /// The first element that has the number.
    pub(crate) fn at(&self, number: usize) -> Option<&T>
        ensures { option_copied result ≡ find (λ x. number == T.number x) self.now }
    {
        let place = self.places.get(number).copied().flatten()?;
        self.items.get(place)
    }
}

/// The place of the first element of each number.
fn places<T: Numbered>(alloc: Global, items: &[T]) -> Result<Vec<Option<usize>>, AllocError>
    ensures { IfOk result (λ places. ArePlaces T.number items.now (place_in places.items)) }
{
    let mut places = Vec::new(alloc);
    for (place, item) in items.iter().enumerate() {
        note(&mut places, item.number(), place)?;
    }
    Ok(places)
}

/// Notes the place of a number, if it has none yet.
fn note(places: &mut Vec<Option<usize>>, number: usize, place: usize) -> Result<(), AllocError>
    ensures { OnOk result ((n : ℕ) → place_in places.new.items n ≡ option_or (place_in places.old.items n) (if n == number then Some place else None)) }
{
    make_room(places, number)?;
    if places[number].is_none() {
        places[number] = Some(place);
    }
    Ok(())
}

/// Makes room for a number.
fn make_room(places: &mut Vec<Option<usize>>, number: usize) -> Result<(), AllocError>
    ensures same { OnOk result ((n : ℕ) → place_in places.new.items n ≡ place_in places.old.items n) }
    ensures room { OnOk result (number < vec_len places.new) }
{
    if places.len() <= number {
        let wanted = number.checked_add(1).ok_or(AllocError)?;
        places.resize(wanted, None)?;
    }
    Ok(())
}
