//! Which names a registry binds, which are also those that a Lookup frame may ask for.
#![tactic(auto)]

ghost use Rattle.std.specs.Prelude.{◌≡◌};
ghost use Rattle.std.specs.List.{list_all};
ghost use Rattle.registry_names.specs.Names as names;

/// Returns whether these bytes may name an object: 1 to 255 ASCII letters, digits, `_` and `.` (a rule of
/// our own; in the Java RMI specification, 6.1, a name is any string).
pub fn is_name(bytes: &[u8]) -> bool
    ensures { result ≡ names.is_name bytes.now }
{
    !bytes.is_empty() && bytes.len() <= 255 && are_name_bytes(bytes)
}

fn are_name_bytes(bytes: &[u8]) -> bool
    ensures { result ≡ list_all names.is_name_byte bytes.now }
{
    bytes.iter().all(|byte| is_name_byte(*byte))
}

fn is_name_byte(byte: u8) -> bool
    ensures { result ≡ names.is_name_byte byte }
{
    byte.is_ascii_alphanumeric() || byte == b'_' || byte == b'.'
}
