//! The call that a text writes.

ghost use Rattle.std.specs.Prelude.{◌≡◌, ◌<◌, ◌^◌, IfOk, IfSome, Some, string_bytes, map};
ghost use Rattle.std.specs.Option.{option_map};
ghost use Rattle.replay.specs.Told.{object_in, reference_in, value_in, unspaced, arguments_in, invocation_in};
ghost use Rattle.replay.specs.Working.Names.{AreNumbersOf};
ghost use Rattle.replay.specs.Working.Reading.{IsReady, items_of, invocation_of};

use crate::candidate::Replay;
use core_lang::value::Value;
use input_files::piece::{behind, count, cut, from, is, number, place_of};
use source::memory::NoMemory;

/// A call that a text writes.
#[derive(Drop)]
pub(crate) struct Invoked {
    /// The section, an index into the program's sections.
    pub section: usize,
    /// The values of its arguments.
    pub arguments: Vec<Value>,
}

// The text without the space at its start, if there is one.
fn unspaced(text: &[u8]) -> &[u8]
    ensures { result.now ≡ unspaced text.now }
{
    match text {
        [b' ', rest @ ..] => rest,
        _ => text,
    }
}

impl Replay<'_> {
    // The object that a text like `p[0]` writes.
    fn object_in(&self, text: &[u8]) -> Option<u32>
        requires { IsReady self.now }
        ensures { result ≡ object_in self.now.program.now.shape text.now }
    {
        let (name, index) = cut(text, b'[');
        let Some(pool) = self.pools.find(name) else {
            return None;
        };
        let Some(pool) = self.program.shape.pools.get(pool) else {
            return None;
        };
        let (index, _) = cut(index, b']');
        let Some(index) = count(index) else {
            return None;
        };
        if index < u64::from(pool.length) {
            Some(pool.first + index as u32)
        } else {
            None
        }
    }

    // The value that the text writes.
    fn value_in(&self, text: &[u8]) -> Option<Value>
        requires { IsReady self.now }
        ensures { result ≡ value_in self.now.program.now.shape text.now }
    {
        if let Some(number) = number(text) {
            return Some(Value::Int(number));
        }
        if is(text, "null") {
            return Some(Value::Ref(None));
        }
        match self.object_in(text) {
            Some(object) => Some(Value::Ref(Some(object))),
            None => None,
        }
    }

    // The values that the text writes: none, or those between commas.
    fn arguments_in(&self, text: &[u8]) -> Result<Option<Vec<Value>>, NoMemory>
        requires { IsReady self.now }
        ensures { IfOk result
            (λ values. option_map items_of values ≡ arguments_in self.now.program.now.shape text.now) }
    {
        let mut values = Vec::new(self.alloc);
        if text.is_empty() {
            return Ok(Some(values));
        }
        let mut rest = text;
        'values: loop {
            let place = place_of(rest, b',');
            let Some(value) = self.value_in(unspaced(&rest[..place])) else {
                return Ok(None);
            };
            values.push(value)?;
            if place == rest.len() {
                return Ok(Some(values));
            }
            rest = behind(rest, place);
        }
    }

    /// The call that the text writes.
    pub(crate) fn invoked_in(&self, text: &[u8]) -> Result<Option<Invoked>, NoMemory>
        requires { IsReady self.now }
        ensures { IfOk result
            (λ invoked. option_map invocation_of invoked ≡ invocation_in self.now.program.now text.now) }
    {
        let (name, inside) = cut(text, b'(');
        let Some(section) = self.sections.find(name) else {
            return Ok(None);
        };
        let (arguments, _) = cut(inside, b')');
        match self.arguments_in(arguments)? {
            Some(arguments) => Ok(Some(Invoked { section, arguments })),
            None => Ok(None),
        }
    }
}
