// Numbers in the words of a line.

ghost use Rattle.std.specs.Prelude.{◌≡◌, ◌%◌, ◌^◌};
ghost use Rattle.frames.specs.Words.{digits_value};

// The number that the decimal digits of a word say, modulo 2 to the 64th. Other bytes count for nothing.
pub fn number_in(word: &[u8]) -> u64
    ensures { result ≡ digits_value word.now % 2 ^ 64 }
{
    word.iter().fold(0u64, |n, b| match b {
        b'0'..=b'9' => n.wrapping_mul(10).wrapping_add(u64::from(*b - b'0')),
        _ => n,
    })
}
