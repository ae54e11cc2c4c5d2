//! Which source is current.
ghost use Rattle.std.specs.Prelude.{◌≡◌, ◌^◌, ◌<◌, ◌≤◌, [], ◌∷◌, ◌++◌, map, length, slice_index};
ghost use Rattle.clk_record.specs.Fold.{IsCurrent};

use clk_record::Watched;

/// The place of the source with the greatest rating, the first on a tie. The reference comes last.
pub(crate) fn current_place(sources: &[Watched], reference: u32) -> u32
    requires { length sources.now < 2 ^ 32 }
    ensures { IsCurrent (map (λ w. w.rating) sources.now ++ reference ∷ []) result }
{
    let mut place = sources.len();
    for i in (0..sources.len()).rev() {
        if rating_at(sources, reference, i) >= rating_at(sources, reference, place) {
            place = i;
        }
    }
    place as u32
}

/// The rating of the source at a place, or that of the reference past the last one.
fn rating_at(sources: &[Watched], reference: u32, place: usize) -> u32
    requires { place ≤ length sources.now }
    ensures { result ≡ slice_index (map (λ w. w.rating) sources.now ++ reference ∷ []) place }
{
    if place < sources.len() {
        sources[place].rating
    } else {
        reference
    }
}
