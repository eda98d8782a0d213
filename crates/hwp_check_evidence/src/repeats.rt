ghost use Rattle.std.specs.Prelude.{◌≡◌, [], ◌∷◌, ◌++◌, Some, IfOk, OnOk, ◌-◌, length, slice_get, option_and_then};
ghost use Rattle.std.specs.Option.{option_copied};

use hwp_law::OutOfMemory;
use std::alloc::Global;
use std::marker::Model;

/// A growing list in which an item that stands again behind itself is held once. Clauses see it as the list of all items.
#[derive(Drop)]
pub struct Repeats<T> {
    /// Which of the items stands at each place.
    which: Vec<usize>,
    held: Vec<T>,
}

impl<T> Model for Repeats<T> {
    ghost use Rattle.std.specs.Prelude.{List as Items};
    ghost use Rattle.hwp_check_evidence.specs.Repeats.{AreHeld, shown};

    ghost Value = { Items T };

    ghost view = { λ r. shown r.held.items r.which.items };

    ghost invariant = { λ r. AreHeld r.held.items r.which.items };
}

/// The item at a place, if there is one.
fn shown_at<'a, T>(held: &'a [T], which: &[usize], place: u64) -> Option<&'a T>
    ensures { option_copied result ≡ option_and_then (slice_get held.now) (slice_get which.now place) }
{
    let number = which.get(place as usize)?;
    held.get(*number)
}

/// The last of some numbers, if there is one.
fn last_of(numbers: &[usize]) -> Option<usize>
    ensures { result ≡ slice_get numbers.now (length numbers.now - 1) }
{
    let count = numbers.len();
    if count == 0 {
        None
    } else {
        Some(numbers[count - 1])
    }
}

impl<T: Drop> Repeats<T> {
    /// The empty list, with room for so many places.
    pub fn new(alloc: Global, places: usize) -> Result<Repeats<T>, OutOfMemory>
        ensures { IfOk result (λ list. list ≡ []) }
    {
        Ok(Repeats {
            which: Vec::with_capacity(alloc, places)?,
            held: Vec::new(alloc),
        })
    }

    /// Adds an item at the end.
    pub fn push(&mut self, item: T) -> Result<(), OutOfMemory>
        ensures { OnOk result (self.new ≡ self.old ++ item ∷ []) }
    {
        let last = self.held.as_slice().len();
        self.held.push(item)?;
        self.which.push(last)?;
        Ok(())
    }

    /// Adds the last item once more, if there is one.
    pub fn again(&mut self) -> Result<(), OutOfMemory>
        ensures { OnOk result ((item : T) → slice_get self.old (length self.old - 1) ≡ Some item → self.new ≡ self.old ++ item ∷ []) }
    {
        if let Some(last) = last_of(self.which.as_slice()) {
            self.which.push(last)?;
        }
        Ok(())
    }

    /// The item at a place, if there is one.
    pub fn get(&self, place: u64) -> Option<&T>
        ensures { option_copied result ≡ slice_get self.now place }
    {
        shown_at(self.held.as_slice(), self.which.as_slice(), place)
    }
}
