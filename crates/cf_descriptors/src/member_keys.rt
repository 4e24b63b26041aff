//! Which members stood before: a table of their names and descriptors.

ghost use Rattle.std.specs.Prelude.{◌≡◌, ◌∷◌, ◌++◌, [], List, IfErr, IfOk, OnOk, not};
ghost use Rattle.cf_pool.specs.declared.pool.Entry.{Entry};
ghost use Rattle.cf_text.specs.declared.fault.ReadFault.TheVariants.{Memory};
ghost use Rattle.cf_descriptors.specs.MemberKeys.{descriptor_of, name_of, occurs, AreSeen, IsKey};

use cf_layout::Member;
use cf_pool::{Pool, ReadFault};
use std::alloc::Global;
use std::collections::BTreeSet;

/// The names and descriptors of members so far. Of a name and a descriptor the shorter one is compared first:
/// so a long text that many members share is compared only if the other one is the same too.
#[derive(Drop)]
pub struct MemberKeys<'a> {
    keys: BTreeSet<((&'a [u8], &'a [u8]), bool)>,
}

// The shorter one of a name and a descriptor, the longer one, and whether the name is the shorter one.
fn key<'a>(name: &'a [u8], descriptor: &'a [u8]) -> ((&'a [u8], &'a [u8]), bool)
    ensures name { name_of result ≡ name.now }
    ensures descriptor { descriptor_of result ≡ descriptor.now }
    ensures key { IsKey result }
{
    if name.len() <= descriptor.len() {
        ((name, descriptor), true)
    } else {
        ((descriptor, name), false)
    }
}

impl<'a> MemberKeys<'a> {
    /// Returns those of no member.
    pub fn new(alloc: Global) -> MemberKeys<'a>
        ensures { (pool : List Entry) → AreSeen pool result [] }
    {
        MemberKeys {
            keys: BTreeSet::new(alloc),
        }
    }

    /// Returns whether a member's name and descriptor are new, and puts it after those so far. A member
    /// whose name or descriptor is no text is new.
    pub fn add(&mut self, pool: &'a Pool, member: &Member) -> Result<bool, ReadFault>
        ensures value { IfOk result (λ new. (members : List Member)
            → AreSeen pool.now self.old members → new ≡ not (occurs pool.now members member.now)) }
        ensures added { OnOk result ((members : List Member) → AreSeen pool.now self.old members
            → AreSeen pool.now self.new (members ++ member.now ∷ [])) }
        ensures want { IfErr result (λ fault. fault ≡ Memory) }
    {
        let Some(descriptor) = pool.utf8(member.descriptor.value) else {
            return Ok(true);
        };
        let Some(name) = pool.utf8(member.name.value) else {
            return Ok(true);
        };
        Ok(
            self.keys
                .insert(key(name.as_bytes(), descriptor.as_bytes()))?,
        )
    }
}
