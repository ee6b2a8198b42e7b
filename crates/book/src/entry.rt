// A sighting (textbook: an occurrence of a pattern): the place of its last event in the text, the
// number of the cue and its length.
#[derive(Clone, Copy, PartialEq, Eq, Debug, Default)]
pub struct Entry {
    pub place: u32,
    pub cue: u16,
    pub len: u16,
}
