// The interface of an engine (textbook: a matching automaton): six statements over what it means.

#![tactic(auto)]

ghost use Rattle.std.specs.Prelude.{◌≡◌, ℕ, ◌+◌, ◌≤◌, List, [], ◌∷◌, ◌++◌, length, MatchResult};
ghost use Rattle.book.specs.Cues.{answer};
ghost use Rattle.book.specs.Held.{book_held, cue_signs};
ghost use Rattle.matching.specs.Match.{live as live_of, sightings, standing as standing_of};
ghost use Rattle.engine.specs.Statements.{ith, load_refusal, named, resume_refusal};

use book::Book;
use events::{Event, Refusal};

// An engine means two things: the cues of a book, each a list of signs, and a live beginning (the
// longest beginning that ends the text so far). Questions change nothing, and only `load` changes the
// cues. The cost is what the engine spends on its signs, for the bound on its work.
pub trait Engine: Sized {
    // The greatest total of signs that the engine holds.
    const CAPACITY: usize;

    // The same number in clauses; the prover holds the two equal in each engine.
    ghost CAPACITY: { ℕ };

    ghost cues: { Self → List (List ℕ) };

    ghost live: { Self → List ℕ };

    ghost cost: { Self → ℕ };

    // The capacity as an answer.
    fn most() -> usize
        ensures { result ≡ CAPACITY };

    // Takes the cues of a book, with nothing live.
    fn load<E: Event>(&mut self, book: &Book<E>) -> Result<(), Refusal>
        ensures value { result ≡ answer (load_refusal CAPACITY (cue_signs (book_held book.now))) tt }
        ensures held { MatchResult result (λ _. (cues self.new ≡ cue_signs (book_held book.now)) × (live self.new ≡ []) × (cost self.new ≡ 0)) (λ _. self.new ≡ self.old) };

    // One sign more: live becomes the longest beginning that ends the old one followed by the sign.
    fn step(&mut self, sign: u16)
        ensures cues { cues self.new ≡ cues self.old }
        ensures live { live self.new ≡ live_of (cues self.old) (live self.old ++ sign ∷ []) }
        ensures cost { cost self.new + length (live self.new) ≤ cost self.old + length (live self.old) + 2 };

    // Nothing is live any more.
    fn restart(&mut self)
        ensures cues { cues self.new ≡ cues self.old }
        ensures live { live self.new ≡ [] }
        ensures cost { cost self.new ≡ 0 };

    // How many cues end the live beginning.
    fn sighted(&self) -> usize
        ensures { result ≡ length (sightings (cues self.now) (live self.now)) };

    // The i-th longest cue that ends the live beginning, counted from 1: its number and length.
    fn sighting(&self, i: usize) -> Option<(u16, u16)>
        ensures { result ≡ ith i (sightings (cues self.now) (live self.now)) };

    // The lowest cue that begins with the live beginning, and its length; (0, 0) where it is empty.
    fn standing(&self) -> (u16, u16)
        ensures { result ≡ standing_of (cues self.now) (live self.now) };

    // Back to the beginning that a standing names.
    fn resume(&mut self, standing: (u16, u16)) -> Result<(), Refusal>
        ensures value { result ≡ answer (resume_refusal (cues self.old) standing) tt }
        ensures held { MatchResult result (λ _. (cues self.new ≡ cues self.old) × (live self.new ≡ named (cues self.old) standing) × (cost self.new ≡ 0)) (λ _. self.new ≡ self.old) };
}
