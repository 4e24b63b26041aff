//! Digests of class files.

use super::spelling::bytes_of;
use sp_digest::{NamedFile, digest_of};
use std::alloc::Global;
use std::io::Write;
use test_rows::RowFault;

/// Prints the digest of two class files.
pub fn put_digest(alloc: Global, said: &mut Vec<u8>, words: &[&str]) -> Result<(), RowFault> {
    let [name, bytes, other_name, other_bytes] = words else {
        return Err(RowFault::Bad);
    };
    let bytes = bytes_of(alloc, &[], &[*bytes])?;
    let other_bytes = bytes_of(alloc, &[], &[*other_bytes])?;
    put_digest_of_two(alloc, said, name, &bytes, other_name, &other_bytes)
}

fn put_digest_of_two(
    alloc: Global,
    said: &mut Vec<u8>,
    name: &str,
    bytes: &[u8],
    other_name: &str,
    other_bytes: &[u8],
) -> Result<(), RowFault> {
    if bytes.len() > 1_000 || other_bytes.len() > 1_000 {
        return Err(RowFault::Bad);
    }
    let files = [
        NamedFile {
            name: name.as_bytes(),
            bytes,
        },
        NamedFile {
            name: other_name.as_bytes(),
            bytes: other_bytes,
        },
    ];
    writeln!(said, "{}", hex::encode(alloc, digest_of(alloc, &files)?)?)?;
    Ok(())
}
