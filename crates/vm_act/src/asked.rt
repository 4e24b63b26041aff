//! What instructions on remote objects ask of the task's space, and its replies.
ghost use Rattle.std.specs.Prelude.{◌≡◌, ◌+◌, ◌<◌, ◌^◌, Some, IsSome, IsTrue};
ghost use Rattle.vm_act.specs.Next.{NotStuck, Does};
ghost use Rattle.vm_act.specs.Steps.{is_kind};
ghost use Rattle.vm_act.specs.Remote.{create, is_remote_at, ask_get, ask_put, put_to, stored_as, answered, push_value, push_made, push_result, push_copy, pop_receiver, leave_call, complete_call};

use crate::ending::{Ending, Flow, Thrown};
use crate::machine::Machine;
use vm_heap::{ClassId, Pointer, Ref, Value, Word, WordKind};

/// What a field of a remote object holds.
#[derive(Clone, Copy, Debug, PartialEq, Eq)]
pub enum FieldValue {
    Null,
    /// An int or a boolean.
    Int(i32),
    Reference(Ref),
}

/// What a task asks its space for.
#[derive(Clone, Copy, Debug, PartialEq, Eq)]
pub enum Asked {
    /// A new remote object of this class.
    Create(ClassId),
    /// What a field of an own object holds.
    Get {
        object: Ref,
        slot: u32,
    },
    /// That a field of an own object hold this value.
    Put {
        object: Ref,
        slot: u32,
        value: FieldValue,
    },
    /// A call of the method of this number on an object of another space, with so many arguments on
    /// top of the operands.
    Call {
        target: Ref,
        method: u32,
        arguments: usize,
    },
}

/// What completes the instruction that asks.
#[derive(Debug, Drop)]
pub enum Reply {
    /// To Create: the new object.
    Made(Ref),
    /// To Get: what the field holds.
    Holds(FieldValue),
    /// To Put.
    Written,
    /// To Call: what it gives, if anything, and the fuel that its callee left.
    Returned { value: Option<Value>, fuel: u64 },
    /// To Call: the callee's fuel was spent.
    RunsOut,
    /// To each of them: an exception of this class is thrown.
    Throws(ClassId),
}

impl Machine {
    /// Executes new of a remote class: it asks for the object.
    #[inline(always)]
    pub fn create(&mut self, class: ClassId) -> Flow
        ensures { Does (create class self.old) result self.new }
    {
        Flow::Asks(Asked::Create(class))
    }

    /// Returns whether the operand with `depth` others above it is a remote object: a reference.
    #[inline(always)]
    pub fn is_remote(&self, depth: usize) -> bool
        requires { IsSome (is_remote_at depth self.now) }
        ensures { is_remote_at depth self.now ≡ Some result }
    {
        matches!(self.stack.operand(depth).as_pointer(), Pointer::Row(_))
    }

    /// Executes getfield of a remote object: it asks for what the field holds.
    pub fn ask_get(&mut self, slot: u32) -> Flow
        requires fits { NotStuck (ask_get slot self.old) }
        ensures does { Does (ask_get slot self.old) result self.new }
        ensures method { self.new.stack.frame.method ≡ self.old.stack.frame.method }
    {
        let object = self.stack.pop();
        match object.as_pointer() {
            Pointer::Row(row) => Flow::Asks(Asked::Get {
                object: self.references.get(row),
                slot,
            }),
            _ => unreachable!(),
        }
    }

    /// Executes putfield of a remote object, whose field is of this kind: it asks that it hold the
    /// value.
    pub fn ask_put(&mut self, slot: u32, kind: WordKind) -> Flow
        requires fits { NotStuck (ask_put slot kind self.old) }
        ensures does { Does (ask_put slot kind self.old) result self.new }
        ensures method { self.new.stack.frame.method ≡ self.old.stack.frame.method }
    {
        let word = self.stack.pop();
        let object = self.stack.pop();
        match object.as_pointer() {
            Pointer::Row(row) => self.ask_put_at(self.references.get(row), slot, kind, word),
            _ => unreachable!(),
        }
    }

    fn ask_put_at(&self, object: Ref, slot: u32, kind: WordKind, word: Word) -> Flow
        requires kind { IsTrue (is_kind kind word) }
        requires fits { NotStuck (put_to object slot word self.now) }
        ensures { Does (put_to object slot word self.now) result self.now }
    {
        match self.stored(kind, &word) {
            Some(value) => Flow::Asks(Asked::Put {
                object,
                slot,
                value,
            }),
            None => Flow::throws(Thrown::IncompatibleClassChangeError),
        }
    }

    // The value that is written to a field of a remote object: `None` for an object or an array of
    // the heap.
    fn stored(&self, kind: WordKind, word: &Word) -> Option<FieldValue>
        requires kind { IsTrue (is_kind kind word.now) }
        requires fits { IsSome (stored_as self.now word.now) }
        ensures { stored_as self.now word.now ≡ Some result }
    {
        match kind {
            WordKind::Int => Some(FieldValue::Int(word.as_int())),
            WordKind::Reference => match word.as_pointer() {
                Pointer::Null => Some(FieldValue::Null),
                Pointer::Address(_) => None,
                Pointer::Row(row) => Some(FieldValue::Reference(self.references.get(row))),
            },
        }
    }

    /// Completes the instruction that asked for this and waits for the reply. It takes no memory.
    pub fn answer_with(&mut self, asked: Asked, reply: Reply) -> Flow
        requires index { self.old.stack.frame.index + 1 < 2 ^ 64 }
        requires fits { NotStuck (answered asked reply self.old) }
        ensures does { Does (answered asked reply self.old) result self.new }
        ensures method { self.new.stack.frame.method ≡ self.old.stack.frame.method }
    {
        match reply {
            Reply::Made(reference) => self.push_made(reference),
            Reply::Holds(value) => self.push_value(value),
            Reply::Written => self.go_on(),
            Reply::Returned { value, fuel: _ } => self.complete_call(asked, &value),
            Reply::RunsOut => Flow::Ends(Ending::Spent),
            Reply::Throws(class) => Flow::Ends(Ending::ThrewObject(class)),
        }
    }

    fn complete_call(&mut self, asked: Asked, value: &Option<Value>) -> Flow
        requires index { self.old.stack.frame.index + 1 < 2 ^ 64 }
        requires fits { NotStuck (complete_call asked value.now self.old) }
        ensures does { Does (complete_call asked value.now self.old) result self.new }
        ensures method { self.new.stack.frame.method ≡ self.old.stack.frame.method }
    {
        match asked {
            Asked::Call {
                target: _,
                method: _,
                arguments,
            } => self.leave_call(arguments, value),
            _ => unreachable!(),
        }
    }

    fn leave_call(&mut self, arguments: usize, value: &Option<Value>) -> Flow
        requires index { self.old.stack.frame.index + 1 < 2 ^ 64 }
        requires fits { NotStuck (leave_call arguments value.now self.old) }
        ensures does { Does (leave_call arguments value.now self.old) result self.new }
        ensures method { self.new.stack.frame.method ≡ self.old.stack.frame.method }
    {
        self.stack.discard(arguments);
        self.pop_receiver(value)
    }

    fn pop_receiver(&mut self, value: &Option<Value>) -> Flow
        requires index { self.old.stack.frame.index + 1 < 2 ^ 64 }
        requires fits { NotStuck (pop_receiver value.now self.old) }
        ensures does { Does (pop_receiver value.now self.old) result self.new }
        ensures method { self.new.stack.frame.method ≡ self.old.stack.frame.method }
    {
        let _ = self.stack.pop();
        self.push_result(value)
    }

    fn push_result(&mut self, value: &Option<Value>) -> Flow
        requires index { self.old.stack.frame.index + 1 < 2 ^ 64 }
        requires fits { NotStuck (push_result value.now self.old) }
        ensures does { Does (push_result value.now self.old) result self.new }
        ensures method { self.new.stack.frame.method ≡ self.old.stack.frame.method }
    {
        match value {
            None => {}
            Some(Value::Null) => self.push(Word::null()),
            Some(Value::Int(n)) => self.push(Word::int(*n)),
            Some(Value::Ints(elements)) => return self.push_copy(elements.as_slice()),
            Some(Value::Ref(reference)) => match self.references.hold(*reference) {
                Some(word) => self.push(word),
                None => return Flow::throws(Thrown::OutOfMemoryError),
            },
        }
        self.go_on()
    }

    fn push_copy(&mut self, elements: &[i32]) -> Flow
        requires index { self.old.stack.frame.index + 1 < 2 ^ 64 }
        requires fits { NotStuck (push_copy elements.now self.old) }
        ensures does { Does (push_copy elements.now self.old) result self.new }
        ensures method { self.new.stack.frame.method ≡ self.old.stack.frame.method }
    {
        if elements.len() >= 0x8000_0000 {
            return Flow::throws(Thrown::OutOfMemoryError);
        }
        match self.heap.copy_ints(elements) {
            Some(word) => {
                self.push(word);
                self.go_on()
            }
            None => Flow::throws(Thrown::OutOfMemoryError),
        }
    }

    fn push_made(&mut self, reference: Ref) -> Flow
        requires index { self.old.stack.frame.index + 1 < 2 ^ 64 }
        requires fits { NotStuck (push_made reference self.old) }
        ensures does { Does (push_made reference self.old) result self.new }
        ensures method { self.new.stack.frame.method ≡ self.old.stack.frame.method }
    {
        match self.references.hold(reference) {
            Some(word) => {
                let fresh = word.fresh(self.stack.index());
                self.push(fresh);
                self.go_on()
            }
            None => Flow::throws(Thrown::OutOfMemoryError),
        }
    }

    fn push_value(&mut self, value: FieldValue) -> Flow
        requires index { self.old.stack.frame.index + 1 < 2 ^ 64 }
        requires fits { NotStuck (push_value value self.old) }
        ensures does { Does (push_value value self.old) result self.new }
        ensures method { self.new.stack.frame.method ≡ self.old.stack.frame.method }
    {
        match value {
            FieldValue::Int(n) => self.push(Word::int(n)),
            FieldValue::Null => self.push(Word::null()),
            FieldValue::Reference(reference) => match self.references.hold(reference) {
                Some(word) => self.push(word),
                None => return Flow::throws(Thrown::OutOfMemoryError),
            },
        }
        self.go_on()
    }
}
