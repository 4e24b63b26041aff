//! Objects (JVMS 6.5).
ghost use Rattle.std.specs.Prelude.{◌≡◌, ◌+◌, ◌<◌, ◌^◌, length, Some, IsSome, option_map, slice_get};
ghost use Rattle.vm_act.specs.Next.{NotStuck, Does};
ghost use Rattle.vm_act.specs.Steps.{on_own_object};
ghost use Rattle.vm_act.specs.Objects.{new_object, get_field, put_field, put_at, referent_at, referent_of, remote_referent, cast, answer, throw};

use crate::ending::{Ending, Flow, Thrown};
use crate::machine::Machine;
use vm_heap::{ClassId, Pointer, Ref, Word, WordKind};

/// What a reference stands for.
#[derive(Clone, Copy, Debug, PartialEq, Eq)]
pub enum Referent {
    Null,
    /// An object of the heap, or a remote one of the task's own space.
    Object(ClassId),
    /// An int array.
    Ints,
    /// A remote object of another space.
    Stub(Ref),
}

impl Machine {
    /// Executes new, of a class whose objects have fields of these kinds.
    #[inline(always)]
    pub fn new_object(&mut self, class: ClassId, fields: &[WordKind]) -> Flow
        requires index { self.old.stack.frame.index + 1 < 2 ^ 64 }
        requires fits { NotStuck (new_object class fields.now self.old) }
        ensures does { Does (new_object class fields.now self.old) result self.new }
        ensures method { self.new.stack.frame.method ≡ self.old.stack.frame.method }
    {
        match self.heap.new_object(class, fields) {
            Some(word) => {
                let fresh = word.fresh(self.stack.index());
                self.push(fresh);
                self.go_on()
            }
            None => Flow::throws(Thrown::OutOfMemoryError),
        }
    }

    /// Executes getfield.
    #[inline(always)]
    pub fn get_field(&mut self, slot: u32) -> Flow
        requires index { self.old.stack.frame.index + 1 < 2 ^ 64 }
        requires fits { NotStuck (get_field slot self.old) }
        ensures does { Does (get_field slot self.old) result self.new }
        ensures method { self.new.stack.frame.method ≡ self.old.stack.frame.method }
    {
        match self.stack.pop().as_address() {
            Some(address) => {
                let word = self.heap.get(address, slot as usize);
                self.push(word);
                self.go_on()
            }
            None => Flow::throws(Thrown::NullPointerException),
        }
    }

    /// Executes putfield.
    #[inline(always)]
    pub fn put_field(&mut self, slot: u32) -> Flow
        requires index { self.old.stack.frame.index + 1 < 2 ^ 64 }
        requires fits { NotStuck (put_field slot self.old) }
        ensures does { Does (put_field slot self.old) result self.new }
        ensures method { self.new.stack.frame.method ≡ self.old.stack.frame.method }
    {
        let word = self.stack.pop();
        let object = self.stack.pop();
        self.put_in(object, slot, word)
    }

    #[inline(always)]
    fn put_in(&mut self, object: Word, slot: u32, word: Word) -> Flow
        requires index { self.old.stack.frame.index + 1 < 2 ^ 64 }
        requires fits { NotStuck (on_own_object (put_at slot word self.old) object) }
        ensures does { Does (on_own_object (put_at slot word self.old) object) result self.new }
        ensures method { self.new.stack.frame.method ≡ self.old.stack.frame.method }
    {
        match object.as_address() {
            Some(address) => self.put_at(address, slot, word),
            None => Flow::throws(Thrown::NullPointerException),
        }
    }

    #[inline(always)]
    fn put_at(&mut self, address: usize, slot: u32, word: Word) -> Flow
        requires index { self.old.stack.frame.index + 1 < 2 ^ 64 }
        requires fits { NotStuck (put_at slot word self.old address) }
        ensures does { Does (put_at slot word self.old address) result self.new }
        ensures method { self.new.stack.frame.method ≡ self.old.stack.frame.method }
    {
        self.heap.put(address, slot as usize, word);
        self.go_on()
    }

    /// Returns what the operand with `depth` others above it stands for: an initialised reference.
    #[inline(always)]
    pub fn referent(&self, depth: usize) -> Referent
        requires { IsSome (referent_at depth self.now) }
        ensures { referent_at depth self.now ≡ Some result }
    {
        let word = self.stack.operand(depth);
        self.referent_of(&word)
    }

    #[inline(always)]
    fn referent_of(&self, word: &Word) -> Referent
        requires { IsSome (referent_of self.now.references self.now.heap.cells word.now) }
        ensures { referent_of self.now.references self.now.heap.cells word.now ≡ Some result }
    {
        match word.as_pointer() {
            Pointer::Address(address) => match self.heap.class_of(address) {
                Some(class) => Referent::Object(class),
                None => Referent::Ints,
            },
            Pointer::Row(row) => self.remote_referent(row),
            Pointer::Null => Referent::Null,
        }
    }

    #[inline(always)]
    fn remote_referent(&self, row: usize) -> Referent
        requires { row < length self.now.references.rows }
        ensures { option_map (remote_referent self.now.references) (slice_get self.now.references.rows row) ≡ Some result }
    {
        let reference = self.references.get(row);
        if self.references.is_own(row) {
            Referent::Object(reference.class)
        } else {
            Referent::Stub(reference)
        }
    }

    /// Executes checkcast, once it is known whether what is on top passes.
    #[inline(always)]
    pub fn cast(&mut self, passes: bool) -> Flow
        requires index { self.old.stack.frame.index + 1 < 2 ^ 64 }
        requires fits { NotStuck (cast passes self.old) }
        ensures does { Does (cast passes self.old) result self.new }
        ensures method { self.new.stack.frame.method ≡ self.old.stack.frame.method }
    {
        if passes {
            self.go_on()
        } else {
            Flow::throws(Thrown::ClassCastException)
        }
    }

    /// Executes instanceof, once it is known whether what is on top is an instance.
    #[inline(always)]
    pub fn answer(&mut self, is: bool) -> Flow
        requires index { self.old.stack.frame.index + 1 < 2 ^ 64 }
        requires fits { NotStuck (answer is self.old) }
        ensures does { Does (answer is self.old) result self.new }
        ensures method { self.new.stack.frame.method ≡ self.old.stack.frame.method }
    {
        let _ = self.stack.pop();
        self.push(Word::int(is as i32));
        self.go_on()
    }

    /// Executes athrow, once it is known what is on top.
    #[inline(always)]
    pub fn throw(&mut self, referent: Referent) -> Flow
        requires fits { NotStuck (throw referent self.old) }
        ensures does { Does (throw referent self.old) result self.new }
        ensures method { self.new.stack.frame.method ≡ self.old.stack.frame.method }
    {
        match referent {
            Referent::Null => Flow::throws(Thrown::NullPointerException),
            Referent::Object(class) => Flow::Ends(Ending::ThrewObject(class)),
            Referent::Ints | Referent::Stub(_) => unreachable!(),
        }
    }
}
