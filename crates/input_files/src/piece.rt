//! The parts of lines: names, numbers, members and values.

ghost use Rattle.std.specs.Prelude.{◌≡◌, ◌≤◌, ◌+◌, ◌==◌, ◌^◌, ◌<◌, ◌*◌, drop, length, min, true, IsTrue, IfSome};
ghost use Rattle.std.specs.List.{position_or_len, list_all, slice_split};
ghost use Rattle.std.specs.Str.{bytes_eq};
ghost use Rattle.source.specs.Texts.{is_letter, is_name_byte, is_digit, value_of};
ghost use Rattle.input_files.specs.Pieces.{before, behind, begins, is_keyword, is_name, is_numeral, count_in, is_count, is_number, number_in, is_index, is_member, is_value, is_next_value, are_values, are_arguments, is_negative};

// A number greater than all that lines may have.
const CAP: u64 = 9_223_372_036_854_775_809;

// Up to this number, ten times the number plus a digit is within the cap.
const LAST_TENTH: u64 = 922_337_203_685_477_580;

/// The index of the first byte `byte`, or the length if there is none.
#[tactic(auto, using(std::proofs::lemmas::List::Sums::position_or_len_is))]
pub fn place_of(text: &[u8], byte: u8) -> usize
    ensures place { result ≡ position_or_len (λ b. b == byte) text.now }
    ensures bound { result ≤ length text.now }
{
    for (i, b) in text.iter().enumerate() {
        if *b == byte {
            return i;
        }
    }
    text.len()
}

/// The text from `place` on.
pub fn from(text: &[u8], place: usize) -> &[u8]
    requires { place ≤ length text.now }
    ensures { result.now ≡ drop place text.now }
{
    &text[place..]
}

/// The text after the byte at `place`.
pub fn behind(text: &[u8], place: usize) -> &[u8]
    requires { place < length text.now }
    ensures { result.now ≡ drop (place + 1) text.now }
{
    &text[place + 1..]
}

/// The text before the first such byte, or all of it, and the text after that byte, or nothing.
pub fn cut(text: &[u8], byte: u8) -> (&[u8], &[u8])
    ensures before { result.0.now ≡ before byte text.now }
    ensures behind { result.1.now ≡ behind byte text.now }
{
    let place = place_of(text, byte);
    if place < text.len() {
        (&text[..place], behind(text, place))
    } else {
        (text, from(text, place))
    }
}

/// Whether the text is this word.
pub fn is(text: &[u8], word: &str) -> bool
    ensures { result ≡ bytes_eq text.now word.now }
{
    text == word.as_bytes()
}

/// Whether the text begins with this word.
pub fn begins(word: &str, text: &[u8]) -> bool
    ensures value { result ≡ begins word.now text.now }
    ensures bound { IsTrue result → length word.now ≤ length text.now }
{
    text.starts_with(word.as_bytes())
}

fn is_letter_byte(b: u8) -> bool
    ensures { result ≡ is_letter b }
{
    matches!(b, b'A'..=b'Z' | b'a'..=b'z' | b'_')
}

fn is_digit_byte(b: u8) -> bool
    ensures { result ≡ is_digit b }
{
    matches!(b, b'0'..=b'9')
}

fn is_keyword(text: &[u8]) -> bool
    ensures { result ≡ is_keyword text.now }
{
    is(text, "lock")
        || is(text, "struct")
        || is(text, "final")
        || is(text, "ref")
        || is(text, "int")
        || is(text, "global")
        || is(text, "protected_by")
        || is(text, "pool")
        || is(text, "init")
        || is(text, "atomic")
        || is(text, "let")
        || is(text, "var")
        || is(text, "if")
        || is(text, "else")
        || is(text, "while")
        || is(text, "print")
        || is(text, "return")
        || is(text, "thread")
        || is(text, "repeat")
        || is(text, "null")
        || is(text, "where")
        || is(text, "call")
}

fn are_name_bytes(text: &[u8]) -> bool
    ensures { result ≡ list_all is_name_byte text.now }
{
    for b in text {
        if !(is_letter_byte(*b) || is_digit_byte(*b)) {
            return false;
        }
    }
    true
}

/// Whether the text is a name: a letter or `_`, then letters, digits and `_`, but not a keyword.
pub fn is_name(text: &[u8]) -> bool
    ensures { result ≡ is_name text.now }
{
    match text {
        [first, rest @ ..] => is_letter_byte(*first) && are_name_bytes(rest) && !is_keyword(text),
        [] => false,
    }
}

fn are_digits(text: &[u8]) -> bool
    ensures { result ≡ list_all is_digit text.now }
{
    for b in text {
        if !is_digit_byte(*b) {
            return false;
        }
    }
    true
}

fn is_numeral(text: &[u8]) -> bool
    ensures { result ≡ is_numeral text.now }
{
    match text {
        [first, rest @ ..] => are_digits(text) && (rest.is_empty() || *first != b'0'),
        [] => false,
    }
}

/// Ten times `value` plus `digit`, or the cap if that is greater.
fn with_digit(value: u64, digit: u64) -> u64
    requires value { value ≤ CAP }
    requires digit { digit ≤ 9 }
    ensures { result ≡ min (value * 10 + digit) CAP }
{
    if value > LAST_TENTH {
        CAP
    } else {
        (value * 10 + digit).min(CAP)
    }
}

/// The number that the digits write, or the cap if it is greater.
fn capped(text: &[u8]) -> u64
    requires { list_all is_digit text.now ≡ true }
    ensures { result ≡ min (value_of text.now) CAP }
{
    let mut value: u64 = 0;
    for b in text {
        value = with_digit(value, u64::from(*b - b'0'));
    }
    value
}

/// The number from 0 to the largest signed 64-bit number that the text writes without leading zeros.
pub fn count(text: &[u8]) -> Option<u64>
    ensures value { result ≡ count_in text.now }
    ensures bound { IfSome result (λ number. number < 2 ^ 63) }
{
    if !is_numeral(text) {
        return None;
    }
    let value = capped(text);
    if value < 1 << 63 { Some(value) } else { None }
}

/// Whether [`count`] has a number for `text`.
pub fn is_count(text: &[u8]) -> bool
    ensures { result ≡ is_count text.now }
{
    is_numeral(text) && capped(text) < 1 << 63
}

fn is_negative(digits: &[u8]) -> bool
    ensures { result ≡ is_negative digits.now }
{
    if !is_numeral(digits) {
        return false;
    }
    let value = capped(digits);
    0 < value && value <= 1 << 63
}

/// Whether the text writes a signed 64-bit number without leading zeros.
pub fn is_number(text: &[u8]) -> bool
    ensures { result ≡ is_number text.now }
{
    match text {
        [b'-', digits @ ..] => is_negative(digits),
        _ => is_count(text),
    }
}

/// The signed 64-bit number that the text writes without leading zeros.
pub fn number(text: &[u8]) -> Option<i64>
    ensures { result ≡ number_in text.now }
{
    match text {
        [b'-', digits @ ..] => {
            if !is_negative(digits) {
                return None;
            }
            Some(-1 - (capped(digits) - 1) as i64)
        }
        _ => match count(text) {
            Some(value) => Some(value as i64),
            None => None,
        },
    }
}

fn is_index(text: &[u8]) -> bool
    ensures { result ≡ is_index text.now }
{
    let (inside, rest) = cut(text, b']');
    rest.is_empty() && is_count(inside) && text.len() == inside.len() + 1
}

/// Whether the text is an element of an array or a member of a pool, as `a[0]`.
pub fn is_member(text: &[u8]) -> bool
    ensures { result ≡ is_member text.now }
{
    let (name, index) = cut(text, b'[');
    is_name(name) && is_index(index)
}

/// Whether the text is a number, `null` or a member.
pub fn is_value(text: &[u8]) -> bool
    ensures { result ≡ is_value text.now }
{
    is_number(text) || is(text, "null") || is_member(text)
}

fn is_next_value(text: &[u8]) -> bool
    ensures { result ≡ is_next_value text.now }
{
    match text {
        [b' ', value @ ..] => is_value(value),
        _ => false,
    }
}

// Whether the text is values that each follow a space, with commas between them.
fn are_next_values(text: &[u8]) -> bool
    ensures { result ≡ list_all is_next_value (slice_split (λ b. b == 44) text.now) }
{
    let mut rest = text;
    'values: loop {
        let place = place_of(rest, b',');
        if !is_next_value(&rest[..place]) {
            return false;
        }
        if place == rest.len() {
            return true;
        }
        rest = behind(rest, place);
    }
}

/// Whether the text is empty, or values with a comma and a space between them.
pub fn are_arguments(text: &[u8]) -> bool
    ensures { result ≡ are_arguments text.now }
{
    if text.is_empty() {
        return true;
    }
    let place = place_of(text, b',');
    if place == text.len() {
        return is_value(text);
    }
    is_value(&text[..place]) && are_next_values(behind(text, place))
}
