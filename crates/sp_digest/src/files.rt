//! Class files with the names of their classes, and their digest.

ghost use Rattle.std.specs.Prelude.{◌≡◌, All, IfOk, IsPermutation, OnOk};
ghost use Rattle.sha2.specs.Sha256.{sha256};
ghost use Rattle.sp_digest.specs.Digests.{AreInOrder, IsDigest, IsShort, spelled};

use sha2::{Digest, Sha256};
use std::alloc::{AllocError, Global};

/// A class file, with the name of its class.
#[derive(Clone, Copy)]
pub struct NamedFile<'a> {
    pub name: &'a [u8],
    pub bytes: &'a [u8],
}

/// Returns the digest of these class files: SHA-256 over them in the order of their names, each with its
/// length in four bytes before it, so that the order in which they come does not matter. Each is shorter
/// than 2^32 bytes. (This project's own rule.)
pub fn digest_of(alloc: Global, files: &[NamedFile<'_>]) -> Result<[u8; 32], AllocError>
    requires { All IsShort files.now }
    ensures { IfOk result (IsDigest files.now) }
{
    let ordered = in_order(alloc, files)?;
    Ok(digest_in_order(&ordered))
}

// The files in the order of their names.
fn in_order<'a>(alloc: Global, files: &[NamedFile<'a>]) -> Result<Vec<NamedFile<'a>>, AllocError>
    ensures permutation { IfOk result (λ ordered. IsPermutation files.now ordered.items) }
    ensures sorted { IfOk result (λ ordered. AreInOrder ordered.items) }
{
    let mut ordered = copies(alloc, files)?;
    sort_by_name(&mut ordered)?;
    Ok(ordered)
}

fn copies<'a>(alloc: Global, files: &[NamedFile<'a>]) -> Result<Vec<NamedFile<'a>>, AllocError>
    ensures { IfOk result (λ copies. copies.items ≡ files.now) }
{
    files.iter().copied().collect(alloc)
}

fn sort_by_name(files: &mut Vec<NamedFile<'_>>) -> Result<(), AllocError>
    ensures permutation { IsPermutation files.old.items files.new.items }
    ensures sorted { OnOk result (AreInOrder files.new.items) }
{
    files.sort_by(|a, b| a.name.cmp(b.name))
}

// The digest of files in this order.
fn digest_in_order(files: &[NamedFile<'_>]) -> [u8; 32]
    requires { All IsShort files.now }
    ensures { result ≡ sha256 (spelled files.now) }
{
    let mut hasher = Sha256::new();
    for file in files {
        let length = file.bytes.len() as u32;
        hasher.update(length.to_be_bytes().as_slice());
        hasher.update(file.bytes);
    }
    hasher.finalize()
}
