//! Loading a class file from a source.

ghost use Rattle.std.specs.Prelude.{◌≡◌, ◌↔◌, IfSome, IsErrOf, IsTrue};
ghost use Rattle.cf_reader.specs.Builds.{reading_of};
ghost use Rattle.cf_load.specs.Loads.{Loads, LoadsPassed};

use super::load_fault::LoadFault;
use cf_reader::{MAX_LEN, ReadClass, ReadFault, read_class};
use dev_io::{ReadError, Source, read_bytes};
use std::alloc::Global;

/// Returns the class file that a source's bytes spell. A fault is that of `read_class` for the
/// bytes, or Device, exactly if the source has failed. A source of more than 1,048,576 bytes is
/// TooLarge, and has given one byte more than these. After a fault the source has given some of its
/// bytes: to load again, take a new source.
pub fn load<S: Source>(alloc: Global, source: &mut S) -> Result<ReadClass, LoadFault>
    ensures device { IsErrOf result LoadFault.Device ↔ IsTrue (S.has_failed source.new) }
    // As the bytes that the source gave are read.
    ensures passed { LoadsPassed reading_of (S.remaining source.old) (S.remaining source.new)
        result }
    // If all of its bytes are known, the answer is that of reading them.
    ensures all { IfSome (S.remaining source.old) (λ all. Loads (reading_of all) result) }
{
    let bytes = match read_bytes(alloc, source, MAX_LEN + 1) {
        Ok(bytes) => bytes,
        Err(ReadError::Device) => return Err(LoadFault::Device),
        Err(ReadError::Memory) => return Err(LoadFault::Read(ReadFault::Memory)),
    };
    match read_class(alloc, &bytes) {
        Ok(class) => Ok(class),
        Err(fault) => Err(LoadFault::Read(fault)),
    }
}
