// The theory of exact matching of several patterns: definitions and laws over lists of numbers, in specs/. Each function here has
// one law as its contract, so that the crate passes only if the law is proved.

#![tactic(auto)]

ghost use Rattle.matching.specs.Laws.{BeginningRead, FrontsBegin, LiveRight, LiveOnly, LiveEnough, SightingsLive, SightingsRead, SightingsFall, SightingsOnce, SightingsOnly, SightingsFew, StandingsTell, StandingBack, StandingOne, LinkRight, WalkRight, TriesWalk, TriesFew, SightingsWalk, EndsRead, WaitRight};
ghost use Rattle.matching.specs.Follow.{FollowLive, EntriesRead, FollowFits, EndingRead};
ghost use Rattle.matching.specs.Calls.{CallsKept, HeldRight, FollowSteps, CallsCheap, SpentStep, CallsTell, CallsFew, ResumeBack, RoomsAlike, EndingsFew};

// a list is a beginning exactly when it is empty or a front of some cue
pub fn beginning_read()
    ensures { BeginningRead }
{}

// a front of a beginning is a beginning
pub fn fronts_begin()
    ensures { FrontsBegin }
{}

// the live beginning is the longest beginning that ends the text
pub fn live_right()
    ensures { LiveRight }
{}

// no list but the live beginning is the longest beginning that ends the text
pub fn live_only()
    ensures { LiveOnly }
{}

// what is live after more signs depends on what is live alone
pub fn live_enough()
    ensures { LiveEnough }
{}

// what is sighted after more signs depends on what is live alone
pub fn sightings_live()
    ensures { SightingsLive }
{}

// the sightings are exactly the cues that end the text
pub fn sightings_read()
    ensures { SightingsRead }
{}

// the lengths of the sightings of distinct cues fall strictly
pub fn sightings_fall()
    ensures { SightingsFall }
{}

// none of several distinct cues is sighted twice
pub fn sightings_once()
    ensures { SightingsOnce }
{}

// no list but the sightings has exactly the cues that end the text, by falling length
pub fn sightings_only()
    ensures { SightingsOnly }
{}

// there are no more sightings of distinct cues than the longest cue has signs
pub fn sightings_few()
    ensures { SightingsFew }
{}

// standings are equal exactly when nothing put behind tells the texts apart
pub fn standings_tell()
    ensures { StandingsTell }
{}

// a standing gives the beginning back, and names the lowest cue
pub fn standing_back()
    ensures { StandingBack }
{}

// a standing determines the beginning
pub fn standing_one()
    ensures { StandingOne }
{}

// the link is the longest shorter beginning that ends a list
pub fn link_right()
    ensures { LinkRight }
{}

// the live beginning of one more sign, by the links
pub fn walk_right()
    ensures { WalkRight }
{}

// the trials of a sign, by the links
pub fn tries_walk()
    ensures { TriesWalk }
{}

// the trials of a sign and of a text are bounded
pub fn tries_few()
    ensures { TriesFew }
{}

// the sightings, by the links
pub fn sightings_walk()
    ensures { SightingsWalk }
{}

// the test for an ending, of a text, of what is live and of one more sign
pub fn ends_read()
    ensures { EndsRead }
{}

// no cue ends before the wait is over
pub fn wait_right()
    ensures { WaitRight }
{}

// what is live and the length of the text are enough to follow
pub fn follow_live()
    ensures { FollowLive }
{}

// the entries written are exactly the sightings at the signs that were followed
pub fn entries_read()
    ensures { EntriesRead }
{}

// no more is followed than is there, and no more is written than is free
pub fn follow_fits()
    ensures { FollowFits }
{}

// why following ends
pub fn ending_read()
    ensures { EndingRead }
{}

// each call keeps what a watch holds
pub fn calls_kept()
    ensures { CallsKept }
{}

// what a watch holds answers for the text that counts
pub fn held_right()
    ensures { HeldRight }
{}

// to follow signs is to take them one by one
pub fn follow_steps()
    ensures { FollowSteps }
{}

// after any calls, the trials are at most twice the signs taken and the length resumed
pub fn calls_cheap()
    ensures { CallsCheap }
{}

// a sign adds its trials
pub fn spent_step()
    ensures { SpentStep }
{}

// after any calls, standings are equal exactly when nothing put behind tells the texts apart
pub fn calls_tell()
    ensures { CallsTell }
{}

// after any calls, no text has more than 32 sightings
pub fn calls_few()
    ensures { CallsFew }
{}

// a standing that was answered can be resumed, and brings the live beginning back
pub fn resume_back()
    ensures { ResumeBack }
{}

// two engines that grant the same loads come to one account
pub fn rooms_alike()
    ensures { RoomsAlike }
{}

// room alone decides a load, where no two cues are equal and none is longer than 32
pub fn endings_few()
    ensures { EndingsFew }
{}
