//! The layers of a drawing.
ghost use Rattle.std.specs.Prelude.{◌≡◌, ◌==◌, ◌&&◌, ℕ, List, [], ◌∷◌, ◌++◌, IsFalse, filter, is_some, nat_eq, not, option_map, IfErr, OnErr, OnOk};
ghost use Rattle.std.specs.Map.{keys_of};
ghost use Rattle.linked_hash_map.specs.Pairs.{find, last, set_value, to_back_as_is, value_at};
ghost use Rattle.linked_hash_map.specs.declared.map.Mode.{Mode};

use linked_hash_map::{LinkedHashMap, Refused};
use std::alloc::Global;

/// The layers with their opacities, the lowest first.
#[derive(Drop)]
pub struct Layers {
    opacities: LinkedHashMap<u64, u64>,
    ghost touch: { opacities.mode ≡ Mode.Touch },
}

impl Layers {
    /// Makes a drawing without layers.
    pub fn new(alloc: Global) -> Layers
        ensures { result.opacities.pairs ≡ [] }
    {
        Layers {
            opacities: LinkedHashMap::new(alloc),
        }
    }

    /// Draws a layer below all others, with this opacity, also if it is there already.
    #[tactic(auto, using(linked_hash_map::proofs::Callers::Rules::front_keys))]
    pub fn add_below(&mut self, layer: u64, opacity: u64) -> Result<(), Refused<u64, u64>>
        ensures order { OnOk result (keys_of self.new.opacities.pairs
            ≡ layer ∷ filter (λ other. not (layer == other)) (keys_of self.old.opacities.pairs)) }
        ensures others { (other : ℕ) → OnOk result (IsFalse (nat_eq layer other)
            → value_at nat_eq self.new.opacities.pairs other
            ≡ value_at nat_eq self.old.opacities.pairs other) }
        ensures handed_back { IfErr result (λ refused. refused.key ≡ layer) }
        ensures unchanged { OnErr result (self.new ≡ self.old) }
    {
        self.opacities.insert_front(layer, opacity)?;
        Ok(())
    }

    /// Draws a layer over all others, and returns whether it is there.
    pub fn raise(&mut self, layer: u64) -> bool
        ensures there { result ≡ is_some (find nat_eq self.old.opacities.pairs layer) }
        ensures order { self.new.opacities.pairs
            ≡ to_back_as_is nat_eq self.old.opacities.pairs layer }
        ensures opacities { (any : ℕ) → value_at nat_eq self.new.opacities.pairs any
            ≡ value_at nat_eq self.old.opacities.pairs any }
        ensures unchanged { IsFalse result → self.new ≡ self.old }
    {
        self.opacities.move_to_back(&layer)
    }

    /// Draws a layer right over another, which is higher, and returns whether both are there.
    #[tactic(auto, using(linked_hash_map::proofs::Callers::NumberRules::across))]
    pub fn raise_over(&mut self, layer: u64, other: u64) -> bool
        ensures both { result ≡ (is_some (find nat_eq self.old.opacities.pairs layer)
            && is_some (find nat_eq self.old.opacities.pairs other)) }
        ensures order { (below between above : List (ℕ × ℕ)) (one two : ℕ)
            → self.old.opacities.pairs
            ≡ below ++ (layer, one) ∷ (between ++ (other, two) ∷ above)
            → self.new.opacities.pairs
            ≡ below ++ (between ++ (other, two) ∷ (layer, one) ∷ above) }
        ensures opacities { (any : ℕ) → value_at nat_eq self.new.opacities.pairs any
            ≡ value_at nat_eq self.old.opacities.pairs any }
        ensures unchanged { IsFalse result → self.new ≡ self.old }
    {
        self.opacities.move_after(&layer, &other)
    }

    /// Sets the opacity of a layer, and returns whether it is there. No layer moves.
    #[tactic(auto, using(linked_hash_map::proofs::Callers::NumberRules::written))]
    pub fn fade(&mut self, layer: u64, opacity: u64) -> bool
        ensures there { result ≡ is_some (find nat_eq self.old.opacities.pairs layer) }
        ensures faded { self.new.opacities.pairs
            ≡ set_value nat_eq self.old.opacities.pairs layer opacity }
        ensures order { keys_of self.new.opacities.pairs ≡ keys_of self.old.opacities.pairs }
        ensures others { (other : ℕ) → IsFalse (nat_eq layer other)
            → value_at nat_eq self.new.opacities.pairs other
            ≡ value_at nat_eq self.old.opacities.pairs other }
    {
        match self.opacities.get_mut(&layer) {
            Some(stored) => {
                *stored = opacity;
                true
            }
            None => false,
        }
    }

    /// Returns the highest layer.
    pub fn top(&self) -> Option<u64>
        ensures { result ≡ option_map (λ pair. pair.0) (last self.now.opacities.pairs) }
    {
        match self.opacities.back() {
            Some((layer, _opacity)) => Some(*layer),
            None => None,
        }
    }
}
