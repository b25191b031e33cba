//! Hashes that the author of a text cannot predict.

use core::hash::keyed_hasher;
use std::hash::{BuildHasher, DefaultHasher, Hasher};

/// A hash builder (SipHash-1-3) whose keys are a digest of a text.
///
/// The author of a text picks the names and numbers that the tables of a pass are searched by. If the hashes were known
/// beforehand, keys with equal hashes could make a table slow. Here each change of the text changes all hashes. No
/// clause mentions the keys, since they change no result.
#[derive(Clone, Copy, Debug)]
pub struct KeyedState {
    first: u64,
    second: u64,
}

impl KeyedState {
    /// A hash builder keyed by `text`.
    pub fn of(text: &[u8]) -> KeyedState {
        let mut digest = Digest::new();
        digest.add(text);
        digest.into_keys()
    }
}

impl BuildHasher for KeyedState {
    ghost use Rattle.core.specs.Hash.DefaultHasher as sip;

    type Hasher = DefaultHasher;

    ghost build_hasher = { λ keys. sip.with_keys keys.first keys.second };

    fn build_hasher(&self) -> DefaultHasher {
        keyed_hasher(self.first, self.second)
    }
}

/// A digest of a text that comes in parts: two hashes with different keys.
#[derive(Drop)]
pub struct Digest {
    first: DefaultHasher,
    second: DefaultHasher,
}

impl Digest {
    /// The digest of the empty text.
    pub fn new() -> Digest {
        Digest {
            first: keyed_hasher(0x6c6f_636b, 0x6f72_6465),
            second: keyed_hasher(0x7261_6e6b, 0x7365_6374),
        }
    }

    /// Appends one part of the text.
    pub fn add(&mut self, part: &[u8]) {
        self.first.write(part);
        self.first.write_u8(0xff);
        self.second.write(part);
        self.second.write_u8(0xff);
    }

    /// The hash builder keyed by the parts so far.
    pub fn into_keys(self) -> KeyedState {
        KeyedState {
            first: self.first.finish(),
            second: self.second.finish(),
        }
    }
}
