//! The lines of a header.

ghost use Rattle.std.specs.Prelude.{◌≡◌, ◌≤◌, IfSome, length};
ghost use Rattle.std.specs.List.{prefix_len};
ghost use Rattle.lsp_protocol.specs.Headers as header;

/// The most bytes of a body.
pub const BODY_LIMIT: usize = 16777216;

/// The content of a line of a header.
#[derive(Clone, Copy, Debug, PartialEq, Eq)]
pub enum Field {
    /// It is empty: the header ends.
    End,
    /// The number of bytes of the body.
    Length(usize),
    /// An invalid length: not a number, or one above [`BODY_LIMIT`]; or the input ends within the line.
    Wrong,
    /// Anything else.
    Other,
}

/// The number with one digit more, if it is a digit and the number is then at most [`BODY_LIMIT`].
fn with_digit(number: usize, digit: u8) -> Option<usize>
    requires { number ≤ BODY_LIMIT }
    ensures value { result ≡ header.with_digit number digit }
    ensures few { IfSome result (λ longer. longer ≤ BODY_LIMIT) }
{
    if !digit.is_ascii_digit() {
        return None;
    }
    let longer = 10 * number + (digit - b'0') as usize;
    if longer <= BODY_LIMIT {
        Some(longer)
    } else {
        None
    }
}

/// The number that these digits write.
fn number_of(digits: &[u8]) -> Option<usize>
    ensures { result ≡ header.number_after 0 digits.now }
{
    let mut number = 0usize;
    for digit in digits {
        number = with_digit(number, *digit)?;
    }
    Some(number)
}

/// The number of blanks at the beginning.
fn blanks_of(value: &[u8]) -> usize
    ensures count { result ≡ prefix_len header.is_blank value.now }
    ensures within { result ≤ length value.now }
{
    value
        .iter()
        .take_while(|byte| matches!(**byte, b' ' | b'\t'))
        .count()
}

/// The length after the colon.
fn length_in(value: &[u8]) -> Option<usize>
    ensures { result ≡ header.length_in value.now }
{
    let digits = &value[blanks_of(value)..];
    if digits.is_empty() {
        return None;
    }
    number_of(digits)
}

/// Whether the line states a length.
fn names_length(text: &[u8]) -> bool
    ensures { result ≡ header.names_length text.now }
{
    text[..text.len().min(15)].eq_ignore_ascii_case(b"content-length:")
}

/// The line without the carriage return at its end.
fn text_of(line: &[u8]) -> &[u8]
    ensures { result.now ≡ header.text_of line.entry.now }
{
    match line {
        [front @ .., b'\r'] => front,
        _ => line,
    }
}

/// The content of a line, which is given without its line feed.
pub fn field_of(line: &[u8]) -> Field
    ensures { result ≡ header.field_of line.now }
{
    let text = text_of(line);
    if text.is_empty() {
        return Field::End;
    }
    if !names_length(text) {
        return Field::Other;
    }
    match length_in(&text[text.len().min(15)..]) {
        Some(length) => Field::Length(length),
        None => Field::Wrong,
    }
}
