//! Numbers in text.

/// Returns the first word of a text, if it is a number.
pub(crate) fn first_number(text: &str) -> Option<u64> {
    text.split_ascii_whitespace().next()?.parse::<u64>().ok()
}

/// Returns the number after a name, in the first line that begins with that name.
pub(crate) fn number_after(text: &str, name: &str) -> Option<u64> {
    for line in text.lines() {
        if let Some(rest) = line.strip_prefix(name) {
            return first_number(rest);
        }
    }
    None
}

/// Returns the hundredths of a number with two digits after its point.
pub(crate) fn hundredths(word: &str) -> Option<u64> {
    let (whole, part) = word.split_once('.')?;
    if part.len() != 2 {
        return None;
    }
    let whole = whole.parse::<u64>().ok()?;
    let part = part.parse::<u64>().ok()?;
    whole.checked_mul(100)?.checked_add(part)
}

/// Returns a part in thousandths of a whole, rounded down; 0 if the whole is 0.
pub(crate) fn per_mille(part: u64, whole: u64) -> u64 {
    part.saturating_mul(1000).checked_div(whole).unwrap_or(0)
}
