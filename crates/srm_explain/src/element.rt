//! Elements of lists by their places.
ghost use Rattle.std.specs.Prelude.{◌≡◌, option_map, slice_get};

/// The element at a place of a list, if there is one. Its contract is one equation, and so shorter than that of `get`.
pub(crate) fn element<T>(elements: &[T], place: usize) -> Option<&T>
    ensures { option_map (λ x. x.now) result ≡ slice_get elements.now place }
{
    elements.get(place)
}
