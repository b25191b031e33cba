//! Parts of a text.

ghost use Rattle.std.specs.Prelude.{◌≡◌, ◌≤◌, IsTrue, length, min};
ghost use Rattle.std.specs.List.{list_all, prefix_len, take_while};
ghost use Rattle.source.specs.Texts.{is_digit, value_of};
ghost use Rattle.report_runs.specs.ExpectationTexts.{is_blank, is_word_byte, are_digits, behind, skip, number_in};

/// The limit of `capped`, 2^63: one more than the greatest number.
pub(crate) const OVER: u128 = 9_223_372_036_854_775_808;

fn is_blank(byte: u8) -> bool
    ensures { result ≡ is_blank byte }
{
    byte == b' ' || byte == b'\t'
}

/// Whether a byte is a decimal digit.
pub(crate) fn is_digit(byte: u8) -> bool
    ensures { result ≡ is_digit byte }
{
    matches!(byte, b'0'..=b'9')
}

fn is_word_byte(byte: u8) -> bool
    ensures { result ≡ is_word_byte byte }
{
    matches!(byte, b'A'..=b'Z' | b'a'..=b'z' | b'_' | b'0'..=b'9' | b'.' | b'[' | b']')
}

/// The number of blanks at the start of `text`.
fn blanks(text: &[u8]) -> usize
    ensures place { result ≡ prefix_len is_blank text.now }
    ensures bound { result ≤ length text.now }
{
    text.iter().take_while(|byte| is_blank(**byte)).count()
}

/// `text` without the blanks at its start.
pub(crate) fn skip(text: &[u8]) -> &[u8]
    ensures rest { result.now ≡ skip text.now }
    ensures bound { length result.now ≤ length text.now }
{
    &text[blanks(text)..]
}

/// The number of word bytes at the start of `text`.
fn word_len(text: &[u8]) -> usize
    ensures place { result ≡ prefix_len is_word_byte text.now }
    ensures bound { result ≤ length text.now }
{
    text.iter().take_while(|byte| is_word_byte(**byte)).count()
}

/// The word at the start of `text`, and the rest.
pub(crate) fn split_word(text: &[u8]) -> (&[u8], &[u8])
    ensures word { result.0.now ≡ take_while is_word_byte text.now }
    ensures rest { result.1.now ≡ behind is_word_byte text.now }
    ensures bytes { IsTrue (list_all is_word_byte result.0.now) }
{
    text.split_at(word_len(text))
}

fn are_digits(word: &[u8]) -> bool
    ensures { result ≡ are_digits word.now }
{
    for byte in word {
        if !is_digit(*byte) {
            return false;
        }
    }
    true
}

/// The value of `digits`, or `OVER` where it is greater.
fn capped(digits: &[u8]) -> u128
    requires { IsTrue (are_digits digits.now) }
    ensures { result ≡ min (value_of digits.now) OVER }
{
    let mut value: u128 = 0;
    for byte in digits {
        value = (value * 10 + u128::from(*byte - b'0')).min(OVER);
    }
    value
}

/// The number that `word` writes, if it is one that is at most 2^63 - 1.
pub(crate) fn number(word: &[u8]) -> Option<i64>
    ensures { result ≡ number_in word.now }
{
    if !are_digits(word) {
        return None;
    }
    let value = capped(word);
    if value < OVER {
        Some(value as i64)
    } else {
        None
    }
}
