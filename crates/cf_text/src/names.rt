//! Names (JVMS 4.2): of classes, fields and methods, as texts in modified UTF-8.

ghost use Rattle.std.specs.Prelude.{◌≡◌};
ghost use Rattle.std.specs.List.{list_all};
ghost use Rattle.cf_text.specs.Names.{are_parts, is_class_name, is_method_name, is_method_name_byte, is_name, is_name_byte};

/// The name of constructors (JVMS 2.9).
pub const INITIALIZER: &[u8] = b"<init>";

/// The name of class initializers (JVMS 2.9).
pub const CLASS_INITIALIZER: &[u8] = b"<clinit>";

fn is_name_byte(byte: u8) -> bool
    ensures { result ≡ is_name_byte byte }
{
    !matches!(byte, b'.' | b';' | b'[' | b'/')
}

fn is_method_name_byte(byte: u8) -> bool
    ensures { result ≡ is_method_name_byte byte }
{
    is_name_byte(byte) && !matches!(byte, b'<' | b'>')
}

fn are_name_bytes(text: &[u8]) -> bool
    ensures { result ≡ list_all is_name_byte text.now }
{
    for byte in text {
        if !is_name_byte(*byte) {
            return false;
        }
    }
    true
}

fn are_method_name_bytes(text: &[u8]) -> bool
    ensures { result ≡ list_all is_method_name_byte text.now }
{
    for byte in text {
        if !is_method_name_byte(*byte) {
            return false;
        }
    }
    true
}

/// Returns whether a text is an unqualified name, such as a field's (JVMS 4.2.2): not empty, and
/// without `.`, `;`, `[` and `/`.
pub fn is_name(text: &[u8]) -> bool
    ensures { result ≡ is_name text.now }
{
    !text.is_empty() && are_name_bytes(text)
}

/// Returns whether a text is a name of a method: `<init>`, `<clinit>`, or an unqualified name
/// without `<` and `>`.
pub fn is_method_name(text: &[u8]) -> bool
    ensures { result ≡ is_method_name text.now }
{
    text == INITIALIZER
        || text == CLASS_INITIALIZER
        || (!text.is_empty() && are_method_name_bytes(text))
}

/// Returns whether a text is the name of a class in internal form (JVMS 4.2.1): unqualified names
/// parted by `/`.
pub fn is_class_name(text: &[u8]) -> bool
    ensures { result ≡ is_class_name text.now }
{
    let mut begins = true;
    for byte in text {
        if *byte == b'/' && begins || *byte != b'/' && !is_name_byte(*byte) {
            return false;
        }
        begins = *byte == b'/';
    }
    !begins
}
