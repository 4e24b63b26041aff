//! Modified UTF-8 (JVMS 4.4.7): no byte is 0, U+0000 is `c0 80`, and a character past U+FFFF is two
//! surrogates of three bytes each.

ghost use Rattle.std.specs.Prelude.{◌≡◌};

/// What may stand next in a text.
#[derive(Clone, Copy, PartialEq, Eq)]
pub(crate) enum Expected {
    /// The first byte of a character, or the end.
    Character,
    /// The last byte of a character.
    Last,
    /// The byte 80, the last of U+0000.
    LastOfNull,
    /// The second byte of three.
    Middle,
    /// The second byte of three, A0 or above: below it the character would have a shorter form.
    MiddleHigh,
    /// Nothing: the text is refused.
    Nothing,
}

impl Expected {
    ghost use Rattle.cf_text.specs.Utf8.{after_byte, after_first};

    // What the first byte of a character leads to.
    fn after_first(byte: u8) -> Expected
        ensures { result ≡ after_first byte }
    {
        match byte {
            0x01..=0x7f => Expected::Character,
            0xc0 => Expected::LastOfNull,
            0xc2..=0xdf => Expected::Last,
            0xe0 => Expected::MiddleHigh,
            0xe1..=0xef => Expected::Middle,
            _ => Expected::Nothing,
        }
    }

    // What a byte leads to.
    fn after(self, byte: u8) -> Expected
        ensures { result ≡ after_byte self byte }
    {
        match (self, byte) {
            (Expected::Character, _) => Expected::after_first(byte),
            (Expected::Last, 0x80..=0xbf) => Expected::Character,
            (Expected::LastOfNull, 0x80) => Expected::Character,
            (Expected::Middle, 0x80..=0xbf) => Expected::Last,
            (Expected::MiddleHigh, 0xa0..=0xbf) => Expected::Last,
            _ => Expected::Nothing,
        }
    }
}

ghost use Rattle.cf_text.specs.Utf8.{is_modified_utf8};

/// Returns whether a text is modified UTF-8.
pub fn is_modified_utf8(text: &[u8]) -> bool
    ensures { result ≡ is_modified_utf8 text.now }
{
    let mut expected = Expected::Character;
    for byte in text {
        expected = expected.after(*byte);
    }
    matches!(expected, Expected::Character)
}
