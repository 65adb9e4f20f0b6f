//! Keys that are `Copy`, and extensions by references to them.
ghost use Rattle.std.specs.Prelude.{◌==◌};
ghost use Rattle.std.specs.Cmp.{partial_order_from_own_ties};
ghost use Rattle.std.specs.Cmp.Rules.{comparing, hashing};
ghost use Rattle.std.specs.Hash as fed;
ghost use Rattle.std.specs.Ordering.{on, nat_cmp, as_partial_cmp};
ghost use Rattle.std.proofs.Common.{rules};

use super::Map;
use super::call::Call;
use super::counts::Effect;
use super::hasher::BuildKeyHasher;
use super::identity::Identity;
use super::key::write_text;
use linked_hash_map::LinkedHashMap;
use std::cmp::Ordering;
use std::fmt;
use std::hash::{Hash, Hasher};

/// A text that is compared and hashed by a number. Its drop is not counted.
#[derive(Clone, Copy)]
pub struct CopiedKey<'k> {
    text: [u8; 8],
    number: u64,
    identity: &'k Identity,
}

impl<'k> CopiedKey<'k> {
    /// Makes a key of a text and its number.
    pub fn new(text: [u8; 8], number: u64, identity: &'k Identity) -> CopiedKey<'k> {
        CopiedKey {
            text,
            number,
            identity,
        }
    }
}

impl<'k> PartialEq for CopiedKey<'k> {
    ghost eq = { on (λ key. key.number) ◌==◌ };

    ghost laws = { Prim.search (comparing, rules) };

    fn eq(&self, other: &CopiedKey<'k>) -> bool {
        self.identity.count(Effect::EqKey);
        self.number == other.number
    }
}

impl<'k> Eq for CopiedKey<'k> {
    ghost laws = { Prim.search (comparing, rules) };
}

impl<'k> Ord for CopiedKey<'k> {
    ghost cmp = { on (λ key. key.number) nat_cmp };

    ghost total = { Prim.search (comparing, rules) };

    ghost matches_partial_cmp = { Prim.search (comparing, rules) };

    ghost matches_eq = { Prim.search (comparing, rules) };

    fn cmp(&self, other: &CopiedKey<'k>) -> Ordering {
        self.identity.count(Effect::CmpKey);
        self.number.cmp(&other.number)
    }
}

impl<'k> PartialOrd for CopiedKey<'k> {
    ghost partial_cmp = { as_partial_cmp (on (λ key. key.number) nat_cmp) };

    ghost laws = { partial_order_from_own_ties (Prim.search (comparing, rules))
        (Prim.search (comparing, rules)) };

    fn partial_cmp(&self, other: &CopiedKey<'k>) -> Option<Ordering> {
        Some(self.cmp(other))
    }
}

impl<'k> Hash for CopiedKey<'k> {
    ghost hash_input = { λ key. fed.u64 key.number };

    ghost respects_eq = { Prim.search (hashing, rules) };

    fn hash<H: Hasher>(&self, state: &mut H) {
        self.identity.count(Effect::HashKey);
        state.write_u64(self.number);
    }
}

/// The text alone.
impl<'k> fmt::Debug for CopiedKey<'k> {
    fn fmt<W: fmt::Write>(&self, f: &mut fmt::Formatter<W>) -> fmt::Result {
        write_text(self.text, f)
    }
}

/// A map of keys and values that are `Copy`.
type Copied<'k> = LinkedHashMap<CopiedKey<'k>, u64, BuildKeyHasher>;

/// Makes a map of the same pairs, with a copy of the hasher.
fn copied<'k>(call: &Call, map: &'k Map) -> Copied<'k> {
    let mut made = Copied::with_hasher(call.alloc, map.hasher().copy());
    for (key, value) in map.iter() {
        call.note(made.insert(key.copied(), value.number()));
    }
    made
}

/// Extends a copy of a map by references to the pairs of a copy of another, by the trait or by the
/// map's own call, and appends it.
pub fn extend_by_refs<'k>(by_trait: bool, call: &Call, map: &'k Map, other: &'k Map) {
    call.end();
    let mut map = copied(call, map);
    let other = copied(call, other);
    call.begin();
    let is_given = if by_trait {
        call.is_given(<Copied<'k> as Extend<(&CopiedKey<'k>, &u64)>>::extend(
            &mut map,
            other.iter(),
        ))
    } else {
        call.is_given(map.extend_refs(other.iter()))
    };
    if !is_given {
        call.push_str("refused ");
    }
    call.show(&map);
}
