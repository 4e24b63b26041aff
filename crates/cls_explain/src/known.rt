//! The classes that are at hand: those of the files that can be read, and the built-in ones.

use cf_disassembly::HeldType;
use cf_reader::{ClassFile, Flags, Method, ReadClass, ReadFault, Text, read_class};
use cls_set::ClassSet;
use std::alloc::{AllocError, Global};

/// A class file of a set: the path at which it stands, and its bytes.
#[derive(Clone, Copy)]
pub struct ClassSource<'a> {
    pub path: &'a str,
    pub bytes: &'a [u8],
}

/// A class file that was read.
#[derive(Drop)]
pub struct KnownClass<'a> {
    pub source: ClassSource<'a>,
    /// What it says.
    pub class: ReadClass,
}

/// A file that is no class file of the profile.
#[derive(Clone, Copy)]
pub struct UnreadFile<'a> {
    pub path: &'a str,
    pub fault: ReadFault,
}

/// The classes that are at hand.
#[derive(Drop)]
pub struct KnownClasses<'a> {
    /// Those of the files that can be read, as the files come.
    pub classes: Vec<KnownClass<'a>>,
    /// The files that cannot be read.
    pub unread: Vec<UnreadFile<'a>>,
    built_in: ClassSet,
}

impl<'a> KnownClasses<'a> {
    /// Returns the classes of the sources that can be read, and the built-in ones.
    pub fn new(alloc: Global, sources: &[ClassSource<'a>]) -> Result<KnownClasses<'a>, AllocError> {
        let built_in = match ClassSet::build(alloc, Vec::new(alloc)) {
            Ok(set) => set,
            Err(_) => return Err(AllocError),
        };
        let mut classes = Vec::new(alloc);
        let mut unread = Vec::new(alloc);
        for source in sources {
            match read_class(alloc, source.bytes) {
                Ok(class) => classes.push(KnownClass {
                    source: *source,
                    class,
                })?,
                Err(ReadFault::Memory) => return Err(AllocError),
                Err(fault) => unread.push(UnreadFile {
                    path: source.path,
                    fault,
                })?,
            }
        }
        Ok(KnownClasses {
            classes,
            unread,
            built_in,
        })
    }

    /// Returns the class of this name that was read, with its source.
    pub fn read_class(&self, name: &[u8]) -> Option<&KnownClass<'a>> {
        for known in &self.classes {
            if known.class.file().name.is(name) {
                return Some(known);
            }
        }
        None
    }

    /// Returns the class of this name.
    pub fn class(&self, name: &[u8]) -> Option<&ClassFile> {
        if let Some(known) = self.read_class(name) {
            return Some(known.class.file());
        }
        match self.built_in.number(name) {
            Some(number) => Some(&self.built_in.class(number).file),
            None => None,
        }
    }

    /// Returns whether a class is the other, or has it among its supertypes, as far as they are at hand.
    pub fn is_below(&self, alloc: Global, name: &[u8], above: &[u8]) -> Result<bool, AllocError> {
        for supertype in self.supertypes(alloc, name)? {
            if supertype.name.is(above) {
                return Ok(true);
            }
        }
        Ok(false)
    }

    /// Returns a class and its supertypes, each once: those that are at hand.
    pub fn supertypes(&self, alloc: Global, name: &[u8]) -> Result<Vec<&ClassFile>, AllocError> {
        let mut found: Vec<&ClassFile> = Vec::new(alloc);
        self.add_new(&mut found, name)?;
        for index in 0..self.classes.len().saturating_add(self.built_in.len()) {
            let Some(class) = found.get(index).copied() else {
                break;
            };
            if let Some(superclass) = &class.superclass {
                self.add_new(&mut found, superclass.as_bytes())?;
            }
            for interface in class.interfaces.as_slice() {
                self.add_new(&mut found, interface.as_bytes())?;
            }
        }
        Ok(found)
    }

    fn add_new<'b>(
        &'b self,
        found: &mut Vec<&'b ClassFile>,
        name: &[u8],
    ) -> Result<(), AllocError> {
        if is_among(found.as_slice(), name) {
            return Ok(());
        }
        if let Some(class) = self.class(name) {
            found.push(class)?;
        }
        Ok(())
    }

    /// Returns whether what is held may stand where the other is asked.
    pub fn fits(
        &self,
        alloc: Global,
        held: &HeldType,
        asked: &HeldType,
    ) -> Result<bool, AllocError> {
        match (held, asked) {
            (_, HeldType::Top) => Ok(true),
            (HeldType::Null, HeldType::Object(_)) => Ok(true),
            (HeldType::Object(name), HeldType::Object(above)) => {
                self.stands_for(alloc, name, above)
            }
            _ => Ok(held.is(asked)),
        }
    }

    // An interface is taken as any object is (JVMS 4.10.1.2).
    fn stands_for(&self, alloc: Global, name: &Text, above: &Text) -> Result<bool, AllocError> {
        if above.is(b"java/lang/Object") || name.is(above.as_bytes()) {
            return Ok(true);
        }
        match self.class(above.as_bytes()) {
            Some(class) if class.flags.has(Flags::INTERFACE) => Ok(true),
            _ => self.is_below(alloc, name.as_bytes(), above.as_bytes()),
        }
    }

    /// Returns whether a class is an interface that is `java/rmi/Remote` or below it.
    pub fn is_remote_interface(&self, alloc: Global, name: &[u8]) -> Result<bool, AllocError> {
        match self.class(name) {
            Some(class) if class.flags.has(Flags::INTERFACE) => {
                self.is_below(alloc, name, b"java/rmi/Remote")
            }
            _ => Ok(false),
        }
    }
}

fn is_among(classes: &[&ClassFile], name: &[u8]) -> bool {
    for class in classes {
        if class.name.is(name) {
            return true;
        }
    }
    false
}

/// Returns the method of this name and descriptor that a class declares, and its index.
pub fn declared_method<'a>(
    class: &'a ClassFile,
    name: &[u8],
    descriptor: &[u8],
) -> Option<(usize, &'a Method)> {
    for (index, method) in class.methods.as_slice().iter().enumerate() {
        if method.name.is(name) && method.descriptor.is(descriptor) {
            return Some((index, method));
        }
    }
    None
}
