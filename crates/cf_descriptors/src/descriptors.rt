//! Descriptors of a constant pool, each read once however many members share it.

ghost use Rattle.std.specs.Prelude.{◌≡◌, ◌≢◌, ℕ, Some, Err, All, IfOk, IfSome, IfNone, OnOk, List};
ghost use Rattle.cf_text.specs.declared.fault.ReadFault.TheVariants.{Memory};
ghost use Rattle.cf_text.specs.Reading.{Gives};
ghost use Rattle.cf_text.specs.Descriptors.{IsMethodType};
ghost use Rattle.cf_text.specs.Types.{field_descriptor_of, method_descriptor_of};
ghost use Rattle.cf_pool.specs.declared.pool.Entry.{Entry};
ghost use Rattle.cf_pool.specs.Pools.{utf8_at};
ghost use Rattle.cf_descriptors.specs.Descriptors.{AreFieldTypes, AreMethodTypes, ArePackedTypes, IsKnown, IsKnownIfRight};

use cf_layout::{Item, Member};
use cf_pool::{
    FieldType, MethodDescriptor, Pool, ReadFault, Text, read_field_descriptor,
    read_method_descriptor,
};
use cf_text::{Interner, KnownTypes, ReadDescriptor, Shared, TypeTable};
use std::alloc::{AllocError, Global};
use std::collections::BTreeMap;

/// The types that fields of a class name, by the indices of their descriptors.
#[derive(Drop)]
pub struct FieldTypes<'a> {
    by_index: BTreeMap<u16, Shared<FieldType>>,
    types: KnownTypes<'a>,
}

impl<'a> FieldTypes<'a> {
    /// No descriptor is read yet.
    pub fn new(alloc: Global) -> FieldTypes<'a>
        ensures { (pool : List Entry) → AreFieldTypes pool result }
    {
        FieldTypes {
            by_index: BTreeMap::new(alloc),
            types: KnownTypes::new(alloc),
        }
    }

    /// What the descriptor that an item names says: it is read if it was not read before.
    pub fn read(
        &mut self,
        alloc: Global,
        pool: &Pool,
        item: Item,
        text: &'a Text,
    ) -> Result<Shared<FieldType>, ReadFault>
        requires named { utf8_at pool.now item.value ≡ Some text.now }
        requires known { AreFieldTypes pool.now self.old }
        ensures value { Gives (field_descriptor_of item.at text.now) result }
        ensures known { AreFieldTypes pool.now self.new }
    {
        if let Some(known) = self.by_index.get(&item.value) {
            return Ok(known.share()?);
        }
        let kind = read_field_descriptor(text, item.at as usize)?;
        let kind = self.types.share(alloc, text.as_bytes(), kind)?;
        self.by_index.insert(item.value, kind.share()?)?;
        Ok(kind)
    }
}

/// The types that methods of a class name, by the indices of their descriptors.
#[derive(Drop)]
pub struct MethodTypes<'a> {
    by_index: BTreeMap<u16, Shared<ReadDescriptor>>,
    types: KnownTypes<'a>,
}

impl<'a> MethodTypes<'a> {
    /// No descriptor is read yet.
    pub fn new(alloc: Global) -> MethodTypes<'a>
        ensures { (pool : List Entry) → AreMethodTypes pool result }
    {
        MethodTypes {
            by_index: BTreeMap::new(alloc),
            types: KnownTypes::new(alloc),
        }
    }

    /// What the descriptor that an item names says: it is read if it was not read before.
    pub fn read(
        &mut self,
        alloc: Global,
        pool: &Pool,
        item: Item,
        text: &'a Text,
    ) -> Result<Shared<ReadDescriptor>, ReadFault>
        requires named { utf8_at pool.now item.value ≡ Some text.now }
        requires known { AreMethodTypes pool.now self.old }
        ensures value { Gives (method_descriptor_of item.at text.now) result }
        ensures known { AreMethodTypes pool.now self.new }
        ensures kept { (index : ℕ) → IsKnown self.old index → IsKnown self.new index }
        ensures more { OnOk result (IsKnown self.new item.value) }
    {
        if let Some(known) = self.by_index.get(&item.value) {
            return Ok(known.share()?);
        }
        let types = read_method_descriptor(alloc, &mut self.types, text, item.at as usize)?;
        let types = Shared::new(alloc, types)?;
        self.by_index.insert(item.value, types.share()?)?;
        Ok(types)
    }

    /// Returns what the descriptors of these methods say, so that all their types are known. One that is at
    /// fault is left out.
    pub fn of(
        alloc: Global,
        pool: &'a Pool,
        methods: &[Member],
    ) -> Result<MethodTypes<'a>, AllocError>
        ensures known { IfOk result (AreMethodTypes pool.now) }
        ensures all { IfOk result (λ types. All (λ method. IsKnownIfRight pool.now types method.descriptor.value) methods.now) }
    {
        let mut types = MethodTypes::new(alloc);
        for method in methods {
            types.note(alloc, pool, method.descriptor)?;
        }
        Ok(types)
    }

    // Reads the descriptor that an item names, if it is not at fault.
    fn note(&mut self, alloc: Global, pool: &'a Pool, item: Item) -> Result<(), AllocError>
        requires { AreMethodTypes pool.now self.old }
        ensures known { AreMethodTypes pool.now self.new }
        ensures kept { (index : ℕ) → IsKnown self.old index → IsKnown self.new index }
        ensures more { OnOk result (IsKnownIfRight pool.now self.new item.value) }
    {
        let Some(text) = pool.utf8(item.value) else {
            return Ok(());
        };
        let read = self.read(alloc, pool, item, text);
        unless_out_of_memory(&read)
    }

    /// Returns what the descriptor of an index says, if it was read.
    pub fn get(&self, index: u16) -> Option<&ReadDescriptor>
        ensures types { IfSome result (λ types. (pool : List Entry) (text : List ℕ) → AreMethodTypes pool self.now
            → utf8_at pool index ≡ Some text → IsMethodType text types.now) }
        ensures none { IfNone result (¬ IsKnown self.now index) }
    {
        match self.by_index.get(&index) {
            Some(types) => Some(types),
            None => None,
        }
    }

    /// Returns the table of the types of all descriptors that were read.
    pub fn table(&self, alloc: Global) -> Result<TypeTable<'_>, AllocError> {
        let mut types = Interner::new(alloc);
        for descriptor in self.by_index.values() {
            types.add(descriptor)?;
        }
        types.into_table()
    }
}

/// The types that methods of a class name, by the indices of their descriptors, over one table of types.
#[derive(Drop)]
pub struct PackedTypes<'a> {
    by_index: BTreeMap<u16, Shared<MethodDescriptor>>,
    table: TypeTable<'a>,
}

impl<'a> PackedTypes<'a> {
    /// No descriptor is packed yet.
    pub fn new(alloc: Global, table: TypeTable<'a>) -> PackedTypes<'a>
        ensures { (pool : List Entry) → ArePackedTypes pool result }
    {
        PackedTypes {
            by_index: BTreeMap::new(alloc),
            table,
        }
    }

    /// Returns what the descriptor that an item names says. It was read before, and its types are in the
    /// table; `Memory` stands for one that was not.
    pub fn pack(
        &mut self,
        alloc: Global,
        known: &'a MethodTypes<'_>,
        item: Item,
    ) -> Result<Shared<MethodDescriptor>, ReadFault>
        ensures value { (pool : List Entry) (text : List ℕ) → AreMethodTypes pool known.now
            → ArePackedTypes pool self.old → utf8_at pool item.value ≡ Some text
            → Gives (method_descriptor_of item.at text) result }
        ensures packed { (pool : List Entry) → AreMethodTypes pool known.now → ArePackedTypes pool self.old
            → ArePackedTypes pool self.new }
    {
        if let Some(packed) = self.by_index.get(&item.value) {
            return Ok(packed.share()?);
        }
        let Some(read) = known.get(item.value) else {
            return Err(ReadFault::Memory);
        };
        let packed = Shared::new(alloc, self.table.pack(alloc, read)?)?;
        self.by_index.insert(item.value, packed.share()?)?;
        Ok(packed)
    }
}

// A fault of the text is for others to tell.
fn unless_out_of_memory(read: &Result<Shared<ReadDescriptor>, ReadFault>) -> Result<(), AllocError>
    ensures { OnOk result (read.now ≢ Err Memory) }
{
    match read {
        Ok(_) | Err(ReadFault::Broken { .. }) => Ok(()),
        Err(ReadFault::Memory) => Err(AllocError),
    }
}
