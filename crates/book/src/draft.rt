// A draft takes cues; sealed, it is a book. A book owns the material, the signs of its events and the cues.

ghost use Rattle.std.specs.Prelude.{◌≡◌, ◌≤◌, true, vec_len, vec_capacity};
ghost use Rattle.matching.specs.Match.{distinct};
ghost use Rattle.book.specs.Cues.{AllWithin, parts_of, total};

use crate::cue::Cue;
use crate::material::Material;

mod calls;

// At most 128 cues of 1 to 32 events, 1,024 in all, each inside the material and no two the same.
#[derive(Drop)]
pub struct Book<E> {
    material: Material<E>,
    cues: Vec<Cue>,
    ghost few: { vec_len cues ≤ 128 },
    ghost within: { AllWithin (vec_len material.events) cues.items },
    ghost bounded: { total cues.items ≤ 1024 },
    ghost apart: { distinct (parts_of material.signs.items cues.items) ≡ true },
}

// The book so far, with room for all cues. Cues may be added to a draft, and to nothing else.
#[derive(Drop)]
pub struct Draft<E> {
    book: Book<E>,
    ghost room: { 128 ≤ vec_capacity book.cues },
}
