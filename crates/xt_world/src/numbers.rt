// The numbers that the elements of units are called by.
ghost use Rattle.std.specs.Prelude.{◌≡◌, ◌==◌, ℕ, true, [], length, slice_get, IfOk, OnOk, IfSome, IsSomeAnd, if◌then◌else◌};
ghost use Rattle.std.specs.List.{list_all};
ghost use Rattle.spec_stylesheet.specs.Place as stylesheet;
ghost use Rattle.spec_run.specs.World.{same_element};
ghost use Rattle.xt_syntax.specs.PartView.{place_of};
ghost use Rattle.xt_syntax.specs.SheetView.{unit_of};
ghost use Rattle.xt_world.specs.Numbered.{AgreeAmong, AreAsGiven, IsNaming, numbers_among};
ghost use Rattle.xt_world.specs.Turned.{AreNumbersOf, at_number, at_place, leads_back, numbers_in, stands_at, turn_of_number, turn_of_place, units_of};
ghost use Rattle.xt_world.specs.Units.{plain_units};

use crate::key::{PlaceKey, same_place};
use indexmap::IndexMap;
use std::alloc::Global;
use std::rc::Rc;
use xt_base::Place;
use xt_syntax::Unit;
use xt_text::Memory;

/// Units, and the number of each place where one stands.
#[derive(Drop)]
pub(crate) struct Numbers<'a> {
    pub(crate) units: &'a [Rc<Unit>],
    places: IndexMap<PlaceKey<'a>, u64>,
}

impl<'a> Numbers<'a> {
    /// The number of this place, and how many units there are where none stands there.
    pub(crate) fn at(&self, place: &'a Place) -> u64
        ensures { result ≡ numbers_in self.now (place_of place.now) }
    {
        match self.places.get(&PlaceKey { place }) {
            None => self.units.len() as u64,
            Some(number) => *number,
        }
    }
}

/// The units by these numbers, one for each of them, if they tell the places of the units apart; else by their turns.
pub(crate) fn numbers_of<'a>(
    alloc: Global,
    units: &'a [Rc<Unit>],
    given: &[u64],
) -> Result<Numbers<'a>, Memory>
    ensures units { IfOk result (λ numbers. numbers.units.now ≡ units.now) }
    ensures naming { IfOk result (λ numbers. IsNaming (numbers_in numbers) (units_of numbers)) }
    ensures given { IfOk result (λ numbers. AreAsGiven given.now (numbers_in numbers) (units_of numbers)) }
{
    match as_given(alloc, units, given)? {
        None => by_turns(alloc, units),
        Some(numbers) => Ok(numbers),
    }
}

// The units by these numbers. None where they do not tell their places apart, or are not one for each place.
fn as_given<'a>(
    alloc: Global,
    units: &'a [Rc<Unit>],
    given: &[u64],
) -> Result<Option<Numbers<'a>>, Memory>
    ensures units { IfOk result (λ found. IfSome found (λ numbers. numbers.units.now ≡ units.now)) }
    ensures naming { IfOk result (λ found. IfSome found (λ numbers. IsNaming (numbers_in numbers) (units_of numbers))) }
    ensures given { (meant : stylesheet.Place → ℕ) → given.now ≡ numbers_among meant (plain_units units.now) → IsNaming meant (plain_units units.now)
        → IfOk result (λ found. IsSomeAnd found (λ numbers. AgreeAmong (numbers_in numbers) meant (units_of numbers))) }
{
    let mut places = IndexMap::new(alloc);
    if !add_all(&mut places, units, given)? {
        return Ok(None);
    }
    let numbers = Numbers { units, places };
    let turns = turns_of(alloc, &numbers)?;
    if all_lead_back(&numbers, &turns) {
        Ok(Some(numbers))
    } else {
        Ok(None)
    }
}

// Adds the number of the place of each unit. False where they are not as many, or a place would have two.
fn add_all<'a>(
    places: &mut IndexMap<PlaceKey<'a>, u64>,
    units: &'a [Rc<Unit>],
    given: &[u64],
) -> Result<bool, Memory>
    ensures all { (meant : stylesheet.Place → ℕ) → given.now ≡ numbers_among meant (plain_units units.now) → places.old.entries ≡ []
        → IfOk result (λ all. all ≡ true) }
    ensures numbers { (meant : stylesheet.Place → ℕ) → given.now ≡ numbers_among meant (plain_units units.now) → places.old.entries ≡ []
        → OnOk result (AreNumbersOf meant (plain_units units.now) places.new.entries) }
{
    if given.len() != units.len() {
        return Ok(false);
    }
    for turn in 0..units.len() {
        if !add(places, &units[turn].site.place, given[turn])? {
            return Ok(false);
        }
    }
    Ok(true)
}

// Adds the number of a place. False where it had another.
fn add<'a>(
    places: &mut IndexMap<PlaceKey<'a>, u64>,
    place: &'a Place,
    number: u64,
) -> Result<bool, Memory>
    ensures same { IfOk result (λ same. same ≡ (at_place number places.old.entries (place_of place.now) == number)) }
    ensures added { OnOk result ((sought : stylesheet.Place) (other : ℕ) → at_place other places.new.entries sought ≡ (if same_element sought (place_of place.now) then number else at_place other places.old.entries sought)) }
{
    match places.insert(PlaceKey { place }, number)? {
        None => Ok(true),
        Some(before) => Ok(before == number),
    }
}

/// The turn of the first unit whose place has each number.
pub(crate) fn turns_of<'a>(
    alloc: Global,
    numbers: &Numbers<'a>,
) -> Result<IndexMap<u64, u64>, Memory>
    ensures { IfOk result (λ turns. (number : ℕ) → at_number (length numbers.now.units.now) turns.entries number ≡ turn_of_number (numbers_in numbers.now) 0 number (units_of numbers.now)) }
{
    let mut turns = IndexMap::new(alloc);
    let mut turn = 0;
    for unit in numbers.units {
        let number = numbers.at(&unit.site.place);
        add_turn(&mut turns, number, turn)?;
        turn += 1;
    }
    Ok(turns)
}

// Adds a turn, unless one was added for its number before.
fn add_turn(turns: &mut IndexMap<u64, u64>, number: u64, turn: u64) -> Result<(), Memory>
    ensures { OnOk result ((sought other : ℕ) → at_number other turns.new.entries sought ≡ at_number (if sought == number then turn else other) turns.old.entries sought) }
{
    if turns.contains_key(&number) {
        return Ok(());
    }
    turns.insert(number, turn)?;
    Ok(())
}

// Whether the first unit of the number of each place stands at that place: then no two places have one number.
fn all_lead_back(numbers: &Numbers, turns: &IndexMap<u64, u64>) -> bool
    ensures { result ≡ list_all (λ u. leads_back numbers.now turns.now.entries u.site.place) (units_of numbers.now) }
{
    for unit in numbers.units {
        if !leads_back(numbers, turns, unit) {
            return false;
        }
    }
    true
}

// Whether what the number of the unit's place leads to stands at that place.
fn leads_back<'a>(numbers: &Numbers<'a>, turns: &IndexMap<u64, u64>, unit: &'a Rc<Unit>) -> bool
    ensures { result ≡ leads_back numbers.now turns.now.entries (unit_of unit.now.value).site.place }
{
    let place = &unit.site.place;
    let number = numbers.at(place);
    match turns.get(&number) {
        None => false,
        Some(turn) => stands_at(place, numbers.units, *turn),
    }
}

// Whether the unit of this turn stands at this place.
fn stands_at(place: &Place, units: &[Rc<Unit>], turn: u64) -> bool
    ensures { result ≡ stands_at (place_of place.now) (slice_get units.now turn) }
{
    match units.get(turn as usize) {
        None => false,
        Some(unit) => same_place(place, &unit.site.place),
    }
}

// The units by their turns: each place has that of the first unit there.
fn by_turns<'a>(alloc: Global, units: &'a [Rc<Unit>]) -> Result<Numbers<'a>, Memory>
    ensures units { IfOk result (λ numbers. numbers.units.now ≡ units.now) }
    ensures naming { IfOk result (λ numbers. IsNaming (numbers_in numbers) (units_of numbers)) }
{
    let places = first_turns(alloc, units)?;
    Ok(Numbers { units, places })
}

// The turn of the first unit at each place.
fn first_turns<'a>(
    alloc: Global,
    units: &'a [Rc<Unit>],
) -> Result<IndexMap<PlaceKey<'a>, u64>, Memory>
    ensures { IfOk result (λ places. (place : stylesheet.Place) → at_place (length units.now) places.entries place ≡ turn_of_place 0 place (plain_units units.now)) }
{
    let mut places = IndexMap::new(alloc);
    let mut turn = 0;
    for unit in units {
        add_place(&mut places, &unit.site.place, turn)?;
        turn += 1;
    }
    Ok(places)
}

// Adds a turn, unless one was added for its place before.
fn add_place<'a>(
    places: &mut IndexMap<PlaceKey<'a>, u64>,
    place: &'a Place,
    turn: u64,
) -> Result<(), Memory>
    ensures { OnOk result ((sought : stylesheet.Place) (other : ℕ) → at_place other places.new.entries sought ≡ at_place (if same_element sought (place_of place.now) then turn else other) places.old.entries sought) }
{
    let key = PlaceKey { place };
    if places.contains_key(&key) {
        return Ok(());
    }
    places.insert(key, turn)?;
    Ok(())
}
