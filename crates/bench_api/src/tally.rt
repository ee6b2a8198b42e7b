// What a search answers.

ghost use Rattle.std.specs.Prelude.{◌≡◌, ◌+◌, ◌%◌, ◌^◌};

use crate::fault::Fault;

// A status (0 where the text was searched), the number of sightings, and a checksum of their places, cues
// and lengths that does not depend on their order. C takes it as it is.
#[repr(C)]
#[derive(Clone, Copy, PartialEq, Eq, Debug, Default)]
pub struct Tally {
    pub status: u64,
    pub sightings: u64,
    pub checksum: u64,
}

impl Tally {
    // Counts a sighting.
    pub(crate) fn count(&mut self, place: u64, cue: u16, len: u16)
        ensures status { self.new.status ≡ self.old.status }
        ensures sightings { self.new.sightings ≡ (self.old.sightings + 1) % 2 ^ 64 }
    {
        let key = place
            .wrapping_mul(65536)
            .wrapping_add(u64::from(cue))
            .wrapping_mul(64)
            .wrapping_add(u64::from(len));
        let spread = key.wrapping_mul(0x9e37_79b9_7f4a_7c15);
        self.sightings = self.sightings.wrapping_add(1);
        self.checksum = self.checksum.wrapping_add(spread ^ (spread >> 32));
    }
}

// A fault as a status: for C, which has no Result, and for callers that take no fault.
impl From<Result<Tally, Fault>> for Tally {
    ghost use Rattle.bench_api.specs.Answers.{AnswersFor};

    ghost from_gives = { AnswersFor };

    fn from(given: Result<Tally, Fault>) -> Tally {
        match given {
            Ok(tally) => Tally {
                status: 0,
                sightings: tally.sightings,
                checksum: tally.checksum,
            },
            Err(fault) => Tally {
                status: fault.status(),
                sightings: 0,
                checksum: 0,
            },
        }
    }
}
