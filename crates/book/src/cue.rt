// A cue (textbook: a pattern) is a part of the material: `len` events from `place` on.
#[derive(Clone, Copy, PartialEq, Eq, Debug)]
pub struct Cue {
    pub place: usize,
    pub len: usize,
}
