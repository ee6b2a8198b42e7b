// Why a call has no answer.

ghost use Rattle.std.specs.Prelude.{◌≡◌};
ghost use Rattle.bench_api.specs.Faults.{status_of};
ghost use Rattle.bench_api.specs.declared.fault.Fault.TheVariants.{NoMemory, Refused};

use events::Refusal;
use std::alloc::AllocError;
use std::error::Error;
use std::fmt;

#[derive(Clone, Copy, PartialEq, Eq, Debug)]
pub enum Fault {
    // a cue or the book is refused
    Refused(Refusal),
    // there is not enough memory
    NoMemory,
}

impl Fault {
    // The status of this fault, for C: the refusal's number, or 255 for want of memory.
    pub fn status(&self) -> u64
        ensures { result ≡ status_of self.now }
    {
        match self {
            Fault::Refused(refusal) => u64::from(refusal.number()),
            Fault::NoMemory => 255,
        }
    }
}

impl fmt::Display for Fault {
    ghost use Rattle.std.specs.Prelude.{Some};
    ghost use Rattle.bench_api.specs.Faults.{fault_words};

    ghost output = { λ fault. Some (fault_words fault) };

    fn fmt<W: fmt::Write>(&self, f: &mut fmt::Formatter<W>) -> fmt::Result {
        match self {
            Fault::Refused(refusal) => write!(f, "{refusal}"),
            Fault::NoMemory => f.write_str("out of memory"),
        }
    }
}

impl Error for Fault {}

impl From<AllocError> for Fault {
    ghost from_gives = { λ _ fault. fault ≡ NoMemory };

    fn from(_: AllocError) -> Fault {
        Self::NoMemory
    }
}

impl From<Refusal> for Fault {
    ghost from_gives = { λ refusal fault. fault ≡ Refused refusal };

    fn from(reason: Refusal) -> Fault {
        Fault::Refused(reason)
    }
}
