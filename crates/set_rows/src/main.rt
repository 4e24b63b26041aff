//! Makes class files and sets of them as the rows on the standard input say, and prints what is linked, what
//! names mean, which frames methods declare, and what a core that takes calls is told of the classes of a program of
//! them. So a further test case is a row.
//!
//! | A row | What it prints |
//! |---|---|
//! | an empty one, or `# TEXT` | itself |
//! | `new` | nothing: begins without class files |
//! | `file FLAGS NAME SUPER INTERFACES FIELDS METHODS` | nothing: adds the class file of these parts |
//! | `example` | nothing: adds the class file of the parts of the class of examples/sum |
//! | `same` | whether the last class file has the bytes of examples/sum |
//! | `long N` | how many bytes a class file has whose class has a name of N letters, or why there is none |
//! | `link` | how many classes and methods the linked set of the class files has |
//! | `number NAME`, `at NUMBER` | the number of a class of the linked set, and what the class of a number is |
//! | `below CLASS CLASS` | whether the first class is a subclass of the second, and a subtype, and whether it is remote |
//! | `method CLASS NAME DESCRIPTOR` | the method that the name means in the class, and the one that the class declares |
//! | `select CLASS NUMBER` | what a call of the method of this number runs on an object of the class |
//! | `slot CLASS NAME DESCRIPTOR` | the slot of a field |
//! | `frames CLASS NAME DESCRIPTOR` | what a method is passed, the frame in which it begins, and those that it declares, each as a frame that copies it |
//!
//! and of a program:
//!
//! | A row | What it prints |
//! |---|---|
//! | `program` | how many classes and methods the program of the class files has |
//! | `class CLASS` | the number of a class |
//! | `remote CLASS` | whether objects of the class are remote and can be made, and what their fields hold |
//! | `call CLASS METHOD` | whether the method may be called on objects of the class |
//! | `takes METHOD VALUE ..` | whether the method takes these values |
//! | `gives METHOD` | what the method gives |
//! | `runs CLASS METHOD` | the method that a call runs on an object of the class |
//! | `throws CLASS` | whether the class is a Throwable, and the class by which a caller is told of it |
//! | `thrown` | the classes of the exceptions of calls, and of OutOfMemoryError |
//!
//! INTERFACES, FIELDS and METHODS are parted by commas, or `-` for none. A field is `FLAGS:NAME:DESCRIPTOR`, with a
//! constant `FLAGS:NAME:DESCRIPTOR:VALUE`. A method is `FLAGS:NAME:DESCRIPTOR`, with code that returns 0, null or
//! nothing `FLAGS:NAME:DESCRIPTOR:i`, `:a` or `:v`. Flags are four hex digits. A fault of a set is printed as the
//! number and the name of its rule, and the class. Of a program CLASS is a name or a number, METHOD a number: methods
//! are numbered from 0 by class, classes in the order of their names. VALUE is `null`, an int, `ints` for an array,
//! or a reference `SPACE:OBJECT:CLASS`. Each row is printed, and below it the answer; a row that is none of these, or
//! names what is not there, is printed after `bad row: `.
#![tactic(auto)]

use stage::Files;
use std::io;
use std::io::{BufReader, BufWriter};
use test_rows::play_rows;

mod files;
mod frames;
mod links;
mod parts;
mod questions;
mod spelling;
mod stage;

fn main(rt: HostRuntime) -> io::Result<()> {
    let alloc = rt.alloc();
    let input = BufReader::new(alloc, rt.reader())?;
    let out = BufWriter::new(alloc, io::writer(&rt))?;
    play_rows(alloc, Files::new(alloc), input, out)
}
