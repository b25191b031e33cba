//! Numbers in digits.

ghost use Rattle.std.specs.Prelude.{◌≡◌, min, true};
ghost use Rattle.input_files.specs.Steps.{are_digits, value_of};

/// A number greater than all that count.
pub const CAP: u64 = 100_000_000_000;

/// Whether the bytes are one or more digits.
pub fn is_number(bytes: &[u8]) -> bool
    ensures { result ≡ are_digits bytes.now }
{
    for byte in bytes {
        if *byte < b'0' || b'9' < *byte {
            return false;
        }
    }
    !bytes.is_empty()
}

/// The number that the decimal digits `bytes` write, or [`CAP`] if it is greater.
pub fn capped(bytes: &[u8]) -> u64
    requires { are_digits bytes.now ≡ true }
    ensures { result ≡ min (value_of bytes.now) CAP }
{
    let mut value: u64 = 0;
    for byte in bytes {
        value = (value * 10 + u64::from(*byte - b'0')).min(CAP);
    }
    value
}
