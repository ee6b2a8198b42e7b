// The as-run event: what was on air, by kind and cart, and the second of the day at which it began.
// Only the line readers of this crate make one.

ghost use Rattle.std.specs.Prelude.{◌≡◌, ◌<◌};
ghost use Rattle.std.proofs.Common.{rules, arith};
ghost use Rattle.columns.specs.declared.asrun.TheConstants.{SECONDS, CARTS};

use crate::kind::Kind;
use events::Event;

// The seconds of a day.
pub(crate) const SECONDS: u32 = 86_400;

// One more than the greatest cart.
pub(crate) const CARTS: u32 = 1_000_000;

#[derive(Clone, Copy, PartialEq, Eq, Debug)]
pub struct AsRun {
    second: u32,
    kind: Kind,
    cart: u32,
    ghost within_day: { second < SECONDS },
    ghost within_carts: { cart < CARTS },
}

impl AsRun {
    // For the line readers, which have checked both limits.
    pub(crate) fn new(second: u32, kind: Kind, cart: u32) -> AsRun
        requires second_bound { second < SECONDS }
        requires cart_bound { cart < CARTS }
        ensures { (result.second ≡ second) × (result.kind ≡ kind) × (result.cart ≡ cart) }
    {
        AsRun { second, kind, cart }
    }

    // The second of the day at which the event began; 0 for the event of a cue line.
    pub fn second(&self) -> u32
        ensures value { result ≡ self.now.second }
        ensures limit { result < 86400 }
    {
        self.second
    }

    // What kind of material was on air.
    pub fn kind(&self) -> Kind
        ensures { result ≡ self.now.kind }
    {
        self.kind
    }

    // The number of the cart that held the material.
    pub fn cart(&self) -> u32
        ensures value { result ≡ self.now.cart }
        ensures limit { result < 1000000 }
    {
        self.cart
    }
}

// Two as-run events are the same where kind and cart are equal; the second does not count.
impl Event for AsRun {
    ghost use Rattle.columns.specs.AsRuns.{same_as_run};

    ghost same = { same_as_run };

    ghost reflexive = { first_of (Prim.search rules, Prim.grind (arith, Self.row.coded.inj)) };

    ghost symmetric = { first_of (Prim.search rules, Prim.grind (arith, Self.row.coded.inj)) };

    ghost transitive = { first_of (Prim.search rules, Prim.grind (arith, Self.row.coded.inj)) };

    fn same(&self, other: &AsRun) -> bool {
        (self.kind, self.cart) == (other.kind, other.cart)
    }
}
