// The words of a line, and the numbers in them.

use frames::number_in;

// The word up to a blank or the end, and what stands behind the blank.
pub(crate) fn split_word(line: &[u8]) -> (&[u8], &[u8]) {
    match line.iter().position(|b| *b == b' ') {
        Some(i) => (&line[..i], &line[i + 1..]),
        None => (line, &[]),
    }
}

// The first two words of a line.
pub(crate) fn two_words(line: &[u8]) -> (&[u8], &[u8]) {
    let (first, rest) = split_word(line);
    let (second, _) = split_word(rest);
    (first, second)
}

// Each mask fits its type, which the conversion behind it needs to see.

pub(crate) fn low_16(word: &[u8]) -> u16 {
    (number_in(word) & 0xffff) as u16
}

pub(crate) fn low_20(word: &[u8]) -> usize {
    (number_in(word) & 0xf_ffff) as usize
}

pub(crate) fn low_32(word: &[u8]) -> u32 {
    (number_in(word) & 0xffff_ffff) as u32
}
