// A number as an event.

ghost use Rattle.std.specs.Prelude.{◌==◌};
ghost use Rattle.std.proofs.Common.{rules};

use events::Event;

// An event that is known by its number.
#[repr(C)]
#[derive(Clone, Copy, PartialEq, Eq, Debug)]
pub struct Number {
    pub value: u16,
}

// Two events are the same where their numbers are equal.
impl Event for Number {
    ghost same = { λ x y. (x.value == y.value) };

    ghost reflexive = { Prim.search rules };

    ghost symmetric = { Prim.search rules };

    ghost transitive = { Prim.search rules };

    fn same(&self, other: &Number) -> bool {
        self == other
    }
}
