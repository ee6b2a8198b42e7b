// The limits of a book and of its material.

// The events of the material.
pub const MATERIAL: usize = 2048;

// The cues of a book.
pub const CUES: usize = 128;

// The events of one cue.
pub const CUE_EVENTS: usize = 32;

// The events of all cues of a book together.
pub const BOOK_EVENTS: usize = 1024;
