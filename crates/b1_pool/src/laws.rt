//! What the calls of a pool leave of the slices in use.

ghost use Rattle.std.specs.Prelude.{◌≡◌, ◌≢◌, ◌<◌, ◌≤◌, ℕ, List, Some};
ghost use Rattle.b1_pool.specs.Slices.{IsPool, slice_at, used_at, with_alloc, published, given_back};
ghost use Rattle.b1_pool.specs.declared.slices.Slice.{Slice as Slices};

/// A call that takes, publishes or gives back a slice leaves those in use that begin elsewhere.
pub fn other_slices_stay()
    ensures taken { (size here len offset : ℕ) (slices : List Slices) (s : Slices)
        → IsPool size slices → slice_at here slices ≡ Some s → 0 < len → len ≤ s.length
        → here ≢ offset → used_at offset (with_alloc here len slices) ≡ used_at offset slices }
    ensures published { (size here offset : ℕ) (slices : List Slices) (s : Slices)
        → IsPool size slices → slice_at here slices ≡ Some s → here ≢ offset
        → used_at offset (published here slices) ≡ used_at offset slices }
    ensures given_back { (size here offset : ℕ) (slices : List Slices) (s : Slices)
        → IsPool size slices → slice_at here slices ≡ Some s → here ≢ offset
        → used_at offset (given_back here slices) ≡ used_at offset slices }
{}
