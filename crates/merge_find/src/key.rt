// What is asked of a string.
ghost use Rattle.std.specs.Prelude.{◌≡◌, ◌<◌, ◌^◌, length, nat_lt};
ghost use Rattle.merge_find.specs.Decisions.{value};

/// What a question is about: the length of a string, or its byte at a place.
#[derive(Clone, Copy, Drop)]
pub(crate) enum Key {
    Size,
    Byte(u32),
}

// The length of a name, or its byte at a place; past the end stands a zero.
pub(crate) fn value_of(key: Key, name: &[u8]) -> u32
    requires { length name.now < 2 ^ 32 }
    ensures { result ≡ value key name.now }
{
    match key {
        Key::Size => name.len() as u32,
        Key::Byte(i) => match name.get(i as usize) {
            Some(b) => u32::from(*b),
            None => 0,
        },
    }
}
