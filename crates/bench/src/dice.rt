// Numbers by chance.

ghost use Rattle.std.specs.Prelude.{◌<◌};

const LETTERS: u64 = 20;

// A linear congruential generator.
#[derive(Drop)]
pub(crate) struct Dice(u64);

impl Dice {
    pub(crate) fn new() -> Dice {
        Dice(1)
    }

    // A number below that of the sides.
    pub(crate) fn roll(&mut self, sides: u64) -> u64
        requires { 0 < sides }
    {
        self.0 = self
            .0
            .wrapping_mul(6364136223846793005)
            .wrapping_add(1442695040888963407);
        (self.0 >> 33) % sides
    }

    // A letter from `a` on.
    pub(crate) fn roll_letter(&mut self) -> u8 {
        b'a' + (self.roll(LETTERS) & 31) as u8
    }
}
