//! Laws of pairs and walks, as the contracts of functions that do nothing.

ghost use Rattle.std.specs.Prelude.{◌≡◌, ◌≢◌, ◌↔◌, ◌⊎◌, ◌++◌, ◌∷◌, ◌==◌, not, ℕ, List, [], filter, All, Contains, IsTrue};
ghost use Rattle.wait_graph.specs.Walks.{Leads, leads, IsAcyclic, IsLastPair};

/// The test that computes tells whether a walk leads there.
pub fn walk_test()
    ensures { (pairs : List (ℕ × ℕ)) (from to : ℕ)
        → IsTrue (leads pairs from to) ↔ Leads pairs from to }
{}

/// With one more pair, a walk leads where one did, or over that pair. It closes a circle exactly
/// where a walk led back.
pub fn one_more_pair()
    ensures walks { (pairs : List (ℕ × ℕ)) (first second from to : ℕ)
        → Leads (pairs ++ (first, second) ∷ []) from to
        ↔ (Leads pairs from to ⊎ (Leads pairs from first × Leads pairs second to)) }
    ensures acyclic { (pairs : List (ℕ × ℕ)) (first second : ℕ)
        → IsAcyclic (pairs ++ (first, second) ∷ [])
        ↔ (IsAcyclic pairs × (¬ Leads pairs second first)) }
{}

/// Fewer pairs have fewer walks. It is the same for pairs that stand in another order, or twice.
pub fn fewer_pairs()
    ensures walks { (few many : List (ℕ × ℕ)) (from to : ℕ)
        → All (Contains many) few → Leads few from to → Leads many from to }
    ensures acyclic { (few many : List (ℕ × ℕ))
        → All (Contains many) few → IsAcyclic many → IsAcyclic few }
{}

/// Without the pairs to a unit, walks are fewer, and none of two or more units leads there.
pub fn settled_pairs()
    ensures fewer { (pairs : List (ℕ × ℕ)) (unit : ℕ)
        → All (Contains pairs) (filter (λ pair. not (pair.1 == unit)) pairs) }
    ensures none { (pairs : List (ℕ × ℕ)) (unit from : ℕ)
        → Leads (filter (λ pair. not (pair.1 == unit)) pairs) from unit → from ≡ unit }
{}

/// Without the pairs from a unit, walks are fewer, and none of two or more units leads from there.
pub fn dropped_pairs()
    ensures fewer { (pairs : List (ℕ × ℕ)) (unit : ℕ)
        → All (Contains pairs) (filter (λ pair. not (pair.0 == unit)) pairs) }
    ensures none { (pairs : List (ℕ × ℕ)) (unit to : ℕ)
        → Leads (filter (λ pair. not (pair.0 == unit)) pairs) unit to → unit ≡ to }
{}

/// Pairs in no circle, if there are any, have one whose second unit is the first unit of none.
pub fn last_pair()
    ensures { (pairs : List (ℕ × ℕ)) → pairs ≢ [] → IsAcyclic pairs
        → (pair : ℕ × ℕ) × Contains pairs pair × IsLastPair pairs pair }
{}
