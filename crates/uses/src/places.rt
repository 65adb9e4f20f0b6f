//! Keys of two parts, looked up by parts that are lent.
ghost use Rattle.std.specs.Prelude.{◌≡◌};
ghost use Rattle.linked_hash_map.specs.Pairs.{value_at};
ghost use Rattle.uses.specs.Places.{is_place, same_hash, same_places};

use linked_hash_map::{Equivalent, LinkedHashMap};

/// A house in a street.
#[derive(Drop, Debug, PartialEq, Eq, Hash)]
pub struct Place {
    pub street: String,
    pub number: u64,
}

/// A place whose street is lent. It looks up the place.
#[derive(Clone, Copy, Debug, PartialEq, Eq, Hash)]
pub struct PlaceRef<'a> {
    pub street: &'a str,
    pub number: u64,
}

impl<'a> Equivalent<Place> for PlaceRef<'a> {
    ghost equivalent = { λ lent. is_place lent.street.now lent.number };

    ghost respects_hash = { λ lent. same_hash lent.street.now lent.number };

    ghost respects_eq = { λ lent. same_places lent.street.now lent.number };

    fn equivalent(&self, key: &Place) -> bool {
        self.street == key.street.as_str() && self.number == key.number
    }
}

/// Returns how many live at a place. It makes no `String` for the lookup.
pub fn residents(places: &LinkedHashMap<Place, u64>, street: &str, number: u64) -> Option<u64>
    ensures { result ≡ value_at (is_place street.now) places.now.pairs number }
{
    places.get(PlaceRef { street, number }).copied()
}
