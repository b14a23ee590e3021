//! Lines of a schedule.

// The number at the beginning of an entry line, where its second word is this one.
pub(crate) fn number_before(line: &[u8], word: u8) -> Option<u32> {
    let mut number = 0u32;
    for at in 0..line.len() {
        let byte = line[at];
        if byte.is_ascii_digit() {
            number = number
                .saturating_mul(10)
                .saturating_add(u32::from(byte - b'0'));
            continue;
        }
        if byte == b' ' && line.get(at + 1) == Some(&word) && line.get(at + 2) == Some(&b' ') {
            return Some(number);
        }
        return None;
    }
    None
}

/// How many lines of a text have this second word, and a first number from `low` to `high`.
pub(crate) fn count_lines(text: &[u8], word: u8, low: u32, high: u32) -> u32 {
    let mut count = 0u32;
    for line in text.split(|byte| *byte == b'\n') {
        if let Some(number) = number_before(line, word) {
            if low <= number && number <= high {
                count = count.saturating_add(1);
            }
        }
    }
    count
}
