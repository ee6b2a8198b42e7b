// A text has at most so many signs.
pub(crate) const TEXT: u32 = 9_999_999;

// A watch (textbook: a matcher over a stream) holds an engine and the length of its text. Clauses speak
// of every list of calls that leads to a watch; a ghost field could only say that some list does.
#[derive(Drop)]
pub struct Watch<L> {
    pub(crate) engine: L,
    pub(crate) len: u32,
}
