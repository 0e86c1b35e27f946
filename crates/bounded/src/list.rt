// What is done with a list. A method that writes hands the slice to a function, so that the caller
// still knows every place of its buffer once the list is gone; what becomes of the loan's name is
// said call by call, since no fact about one list can name the list before it.
ghost use Rattle.std.specs.Prelude.{◌≡◌, ◌+◌, ◌-◌, ◌<◌, ◌≤◌, [], ◌∷◌, ◌++◌, length, take, drop, is_ok, IfErr, if◌then◌else◌, Some, MatchResult, nat_le, nat_lt, slice_set, slice_get};
ghost use Rattle.bounded.specs.Lists.{entries, room};
ghost use Rattle.bounded.specs.Refusals.{entry_back};

use crate::{Bounded, ListRefusal};

impl<'a, T: Copy> Bounded<'a, T> {
    // An empty list in these places.
    pub fn new(places: &'a mut [T]) -> Bounded<'a, T>
        ensures entries { entries result ≡ [] }
        ensures lent { result.places ≡ places.entry }
    {
        Bounded { places, count: 0 }
    }

    // The list that these places held, with the first `count` of them as its entries.
    pub fn resume(places: &'a mut [T], count: usize) -> Bounded<'a, T>
        ensures entries { entries result ≡ take count places.old }
        ensures lent { result.places ≡ places.entry }
    {
        let count = count.min(places.len());
        Bounded { places, count }
    }

    // How many entries there are.
    pub fn len(&self) -> usize
        ensures { result ≡ length (entries self.now) }
    {
        self.as_slice().len()
    }

    // How many entries there can be.
    pub fn capacity(&self) -> usize
        ensures { result ≡ length (room self.now) }
    {
        self.places.len()
    }

    // The entries.
    pub fn as_slice(&self) -> &[T]
        ensures { result.now ≡ entries self.now }
    {
        &self.places[..self.count]
    }

    // Entry i, or none past the last.
    pub fn get(&self, i: usize) -> Option<T>
        ensures { result ≡ slice_get (entries self.now) i }
    {
        self.as_slice().get(i).copied()
    }

    // One entry more at the end; a full list gives it back.
    pub fn push(&mut self, x: T) -> Result<(), ListRefusal<T>>
        ensures test { is_ok result ≡ nat_lt (length (entries self.old)) (length (room self.old)) }
        ensures entries { entries self.new ≡ (if is_ok result then entries self.old ++ (x ∷ []) else entries self.old) }
        ensures room { room self.new ≡ (if is_ok result then slice_set (room self.old) (length (entries self.old)) x else room self.old) }
        ensures lent { self.new.places.ghost_name ≡ self.old.places.ghost_name }
        ensures refused { IfErr result (λ e. (entry_back e ≡ x) × (self.new ≡ self.old)) }
    {
        let at = self.count;
        if at == self.places.len() {
            return Err(ListRefusal::Full(x));
        }
        write(self.places, at, x);
        self.count = at + 1;
        Ok(())
    }

    // These entries more at the end; where the places do not suffice, the list stays and gives back
    // the first entry that would find none.
    pub fn extend_from_slice(&mut self, new: &[T]) -> Result<(), ListRefusal<T>>
        ensures test { is_ok result ≡ nat_le (length (entries self.old) + length new.now) (length (room self.old)) }
        ensures entries { entries self.new ≡ (if is_ok result then entries self.old ++ new.now else entries self.old) }
        ensures room { room self.new ≡ (if is_ok result then entries self.old ++ (new.now ++ drop (length (entries self.old) + length new.now) (room self.old)) else room self.old) }
        ensures lent { self.new.places.ghost_name ≡ self.old.places.ghost_name }
        ensures refused { IfErr result (λ e. (slice_get new.now (length (room self.old) - length (entries self.old)) ≡ Some (entry_back e)) × (self.new ≡ self.old)) }
    {
        let at = self.count;
        check_fits(self.places.len() - at, new)?;
        overwrite(self.places, at, new);
        self.count = at + new.len();
        Ok(())
    }

    // These entries in place of the old ones; where the places do not suffice, the list stays and
    // gives back the first entry that would find none.
    pub fn replace(&mut self, new: &[T]) -> Result<(), ListRefusal<T>>
        ensures test { is_ok result ≡ nat_le (length new.now) (length (room self.old)) }
        ensures entries { entries self.new ≡ (if is_ok result then new.now else entries self.old) }
        ensures room { room self.new ≡ (if is_ok result then new.now ++ drop (length new.now) (room self.old) else room self.old) }
        ensures lent { self.new.places.ghost_name ≡ self.old.places.ghost_name }
        ensures refused { IfErr result (λ e. (slice_get new.now (length (room self.old)) ≡ Some (entry_back e)) × (self.new ≡ self.old)) }
    {
        check_fits(self.places.len(), new)?;
        overwrite(self.places, 0, new);
        self.count = new.len();
        Ok(())
    }

    // No entries; the places keep what they hold.
    pub fn clear(&mut self)
        ensures entries { entries self.new ≡ [] }
        ensures lent { self.new.places ≡ self.old.places }
    {
        self.count = 0;
    }
}

// Writes x at the place `at`. (Not a slice of one entry: no slice is made of a type of unknown size.)
fn write<T: Copy>(places: &mut [T], at: usize, x: T)
    requires { at < length places.old }
    ensures { places.new ≡ slice_set places.old at x }
{
    places[at] = x;
}

// Refuses new entries that are more than the places left, with the first that would find none.
fn check_fits<T: Copy>(left: usize, new: &[T]) -> Result<(), ListRefusal<T>>
    ensures { MatchResult result (λ _. length new.now ≤ left) (λ e. (left < length new.now) × (slice_get new.now left ≡ Some (entry_back e))) }
{
    match new.get(left) {
        None => Ok(()),
        Some(x) => Err(ListRefusal::Full(*x)),
    }
}

// Writes new entries from the place `at` on.
fn overwrite<T: Copy>(places: &mut [T], at: usize, new: &[T])
    requires { at + length new.now ≤ length places.old }
    ensures { places.new ≡ take at places.old ++ (new.now ++ drop (at + length new.now) places.old) }
{
    places[at..at + new.len()].copy_from_slice(new);
}
