// The material: events, at most 2,048, and the sign of each. They are two lists, since callers are handed each
// as a slice.

ghost use Rattle.std.specs.Prelude.{◌≡◌, ℕ, ◌≤◌, vec_len, slice_index};

mod calls;

#[derive(Drop)]
pub(crate) struct Material<E> {
    events: Vec<E>,
    signs: Vec<u16>,
    ghost short: { vec_len events ≤ 2048 },
    ghost signed: { vec_len signs ≡ vec_len events },
    ghost small: { (k : ℕ) → slice_index signs.items k ≤ 2048 },
}
