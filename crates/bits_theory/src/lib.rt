// The theory of the bit engine: the bits of a word, and cues laid end to end with one bit for each
// place. Each function here has one law as its contract, so that the crate passes only if the law is
// proved.

#![tactic(auto)]

ghost use Rattle.bits_theory.specs.Laws.{CountRight, ReachRight, StepRight};

// the longest front whose bit is set is the live beginning
pub fn reach_right()
    ensures { ReachRight }
{}

// one step of Shift-And leads from the live beginning to the live beginning
pub fn step_right()
    ensures { StepRight }
{}

// there are as many sightings as cues that end the text
pub fn count_right()
    ensures { CountRight }
{}
