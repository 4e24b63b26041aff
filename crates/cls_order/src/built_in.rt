//! The classes that stand in every set (a rule of this project): those that the runtime throws with
//! what they extend, and java/rmi/Remote.

ghost use Rattle.std.specs.Prelude.{◌≡◌, ◌++◌, IfOk, OnOk, map};
ghost use Rattle.cls_order.specs.BuiltIn.{built_in_files, built_in_init, built_in_methods, built_in_flags, file_of};

use cf_reader::{ClassFile, Code, Flags, Method, MethodDescriptor, Pool, Shared, Table, Text};
use std::alloc::{AllocError, Global};

// What a built-in class is.
#[derive(Clone, Copy, PartialEq, Eq)]
pub(crate) enum Kind {
    Concrete,
    Abstract,
    Interface,
}

// A row for each class: its name, that of its superclass, and what it is.
macro_rules! rows {
    ($($name:literal extends $superclass:literal as $kind:ident;)*) => {
        [$(($name, $superclass, Kind::$kind)),*]
    };
}

// The classes below java/lang/Object: superclasses first.
const BELOW_OBJECT: [(&[u8], &[u8], Kind); 28] = rows! {
    b"java/lang/Throwable" extends b"java/lang/Object" as Concrete;
    b"java/lang/Exception" extends b"java/lang/Throwable" as Concrete;
    b"java/lang/RuntimeException" extends b"java/lang/Exception" as Concrete;
    b"java/lang/ArithmeticException" extends b"java/lang/RuntimeException" as Concrete;
    b"java/lang/NullPointerException" extends b"java/lang/RuntimeException" as Concrete;
    b"java/lang/ClassCastException" extends b"java/lang/RuntimeException" as Concrete;
    b"java/lang/NegativeArraySizeException" extends b"java/lang/RuntimeException" as Concrete;
    b"java/lang/IndexOutOfBoundsException" extends b"java/lang/RuntimeException" as Concrete;
    b"java/lang/ArrayIndexOutOfBoundsException" extends b"java/lang/IndexOutOfBoundsException" as Concrete;
    b"java/lang/Error" extends b"java/lang/Throwable" as Concrete;
    b"java/lang/VirtualMachineError" extends b"java/lang/Error" as Abstract;
    b"java/lang/StackOverflowError" extends b"java/lang/VirtualMachineError" as Concrete;
    b"java/lang/OutOfMemoryError" extends b"java/lang/VirtualMachineError" as Concrete;
    b"java/lang/LinkageError" extends b"java/lang/Error" as Concrete;
    b"java/lang/IncompatibleClassChangeError" extends b"java/lang/LinkageError" as Concrete;
    b"java/lang/AbstractMethodError" extends b"java/lang/IncompatibleClassChangeError" as Concrete;
    b"java/lang/IllegalAccessError" extends b"java/lang/IncompatibleClassChangeError" as Concrete;
    b"java/io/IOException" extends b"java/lang/Exception" as Concrete;
    b"java/rmi/Remote" extends b"java/lang/Object" as Interface;
    b"java/rmi/RemoteException" extends b"java/io/IOException" as Concrete;
    b"java/rmi/ConnectException" extends b"java/rmi/RemoteException" as Concrete;
    b"java/rmi/MarshalException" extends b"java/rmi/RemoteException" as Concrete;
    b"java/rmi/UnmarshalException" extends b"java/rmi/RemoteException" as Concrete;
    b"java/rmi/NoSuchObjectException" extends b"java/rmi/RemoteException" as Concrete;
    b"java/rmi/ServerError" extends b"java/rmi/RemoteException" as Concrete;
    b"java/rmi/ServerException" extends b"java/rmi/RemoteException" as Concrete;
    b"java/rmi/NotBoundException" extends b"java/lang/Exception" as Concrete;
    b"java/rmi/AlreadyBoundException" extends b"java/lang/Exception" as Concrete;
};

fn text(alloc: Global, bytes: &[u8]) -> Result<Text, AllocError>
    ensures { IfOk result (λ text. text ≡ bytes.now) }
{
    Text::new(alloc, Vec::from_slice(alloc, bytes)?)
}

// The name and the descriptor of `<init>()V`.
fn init_texts(alloc: Global) -> Result<(Text, Text), AllocError>
    ensures { IfOk result (λ texts. texts ≡ (built_in_init.name, built_in_init.descriptor)) }
{
    let name = text(alloc, b"<init>")?;
    Ok((name, text(alloc, b"()V")?))
}

// The code of `<init>()V`: the one instruction `return`.
fn init_code(alloc: Global) -> Result<Shared<Option<Code>>, AllocError>
    ensures { IfOk result (λ code. code ≡ built_in_init.code) }
{
    let code = Code {
        max_stack: 0,
        max_locals: 1,
        bytes: Table::new(Vec::from_slice(alloc, &[0xb1])?),
        stack_map_table: None,
    };
    Shared::new(alloc, Some(code))
}

// The `<init>()V` of a built-in class.
fn init(alloc: Global) -> Result<Method, AllocError>
    ensures { IfOk result (λ method. method ≡ built_in_init) }
{
    let (name, descriptor) = init_texts(alloc)?;
    let types = Shared::new(alloc, MethodDescriptor::without_types(alloc)?)?;
    Ok(Method {
        flags: Flags {
            bits: Flags::PUBLIC,
        },
        name,
        descriptor,
        types,
        code: init_code(alloc)?,
    })
}

fn methods(alloc: Global, kind: Kind) -> Result<Table<Method>, AllocError>
    ensures { IfOk result (λ methods. methods ≡ built_in_methods kind) }
{
    let mut methods = Vec::new(alloc);
    if kind != Kind::Interface {
        methods.push(init(alloc)?)?;
    }
    Ok(Table::new(methods))
}

fn flags(kind: Kind) -> Flags
    ensures { result.bits ≡ built_in_flags kind }
{
    let bits = match kind {
        Kind::Concrete => Flags::PUBLIC,
        Kind::Abstract => Flags::PUBLIC | Flags::ABSTRACT,
        Kind::Interface => Flags::PUBLIC | Flags::INTERFACE | Flags::ABSTRACT,
    };
    Flags { bits }
}

// A built-in class, as a class file would say it.
fn file(
    alloc: Global,
    name: &[u8],
    superclass: Option<Text>,
    kind: Kind,
) -> Result<ClassFile, AllocError>
    ensures { IfOk result (λ file. file ≡ file_of (record { name = name.now; superclass = superclass; kind = kind })) }
{
    let name = text(alloc, name)?;
    let methods = methods(alloc, kind)?;
    Ok(ClassFile {
        pool: Pool::new(Vec::new(alloc)),
        flags: flags(kind),
        name,
        superclass,
        interfaces: Table::new(Vec::new(alloc)),
        fields: Table::new(Vec::new(alloc)),
        methods,
    })
}

// Adds a class for each row.
fn add_classes(
    alloc: Global,
    rows: &[(&[u8], &[u8], Kind)],
    files: &mut Vec<ClassFile>,
) -> Result<(), AllocError>
    ensures { OnOk result (files.new.items ≡ files.old.items ++ map (λ row. file_of (record { name = row.0.now; superclass = Some row.1.now; kind = row.2 })) rows.now) }
{
    for (name, superclass, kind) in rows {
        let superclass = text(alloc, superclass)?;
        files.push(file(alloc, name, Some(superclass), *kind)?)?;
    }
    Ok(())
}

// The built-in classes, superclasses first.
pub(crate) fn built_in_classes(alloc: Global) -> Result<Vec<ClassFile>, AllocError>
    ensures { IfOk result (λ files. files.items ≡ built_in_files) }
{
    let mut files = Vec::new(alloc);
    files.push(file(alloc, b"java/lang/Object", None, Kind::Concrete)?)?;
    add_classes(alloc, &BELOW_OBJECT, &mut files)?;
    Ok(files)
}
