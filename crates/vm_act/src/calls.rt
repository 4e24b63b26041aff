//! Calls and returns (JVMS 6.5).
ghost use Rattle.std.specs.Prelude.{◌≡◌, ◌≢◌, ◌+◌, ◌<◌, ◌^◌};
ghost use Rattle.vm_act.specs.Next.{NotStuck, Does, Ends};
ghost use Rattle.vm_act.specs.Calls.{call, construct, invoke, on_returned, return_int, return_reference, return_nothing};

use crate::ending::{Ending, Flow, Thrown};
use crate::machine::Machine;
use vm_heap::{Pointer, Word};

/// What a call needs to know of a method with code.
#[derive(Clone, Copy, Debug, PartialEq, Eq)]
pub struct Callee {
    /// Its number.
    pub method: u32,
    /// How many words it is passed, the receiver among them.
    pub arguments: u16,
    pub max_locals: u16,
    pub max_stack: u16,
    /// Whether its receiver is uninitialised as it begins: an `<init>` that has to call another one,
    /// as those of built-in classes do not.
    pub begins_uninit: bool,
}

/// What the class of a receiver selects (JVMS 5.4.5, 6.5).
#[derive(Clone, Copy, Debug, PartialEq, Eq)]
pub enum Selected {
    Method(Callee),
    /// No method, or an abstract one.
    Abstract,
    /// A method that is not public, selected by invokeinterface.
    NotPublic,
    /// The class does not implement the interface of an invokeinterface.
    NotImplemented,
}

impl Machine {
    /// Calls a method on the operands on top: executes invokestatic, and the other calls once the
    /// method is selected.
    #[inline(always)]
    pub fn call(&mut self, callee: Callee) -> Flow
        requires index { self.old.stack.frame.index + 1 < 2 ^ 64 }
        requires fits { NotStuck (call callee self.old) }
        ensures does { Does (call callee self.old) result self.new }
        ensures method { result ≢ Flow.Goes }
    {
        self.stack.go_to(self.stack.index() + 1);
        if self.stack.push_frame(
            callee.method,
            callee.arguments,
            callee.max_locals,
            callee.max_stack,
        ) {
            Flow::Moves
        } else {
            Flow::throws(Thrown::StackOverflowError)
        }
    }

    /// Executes invokespecial of an `<init>`. Turning the object into an initialised one costs
    /// nothing.
    #[inline(always)]
    pub fn construct(&mut self, callee: Callee) -> Flow
        requires index { self.old.stack.frame.index + 1 < 2 ^ 64 }
        requires fits { NotStuck (construct callee self.old) }
        ensures does { Does (construct callee self.old) result self.new }
        ensures method { result ≢ Flow.Goes }
    {
        let receiver = self.stack.operand(callee.arguments as usize - 1);
        self.stack.initialise(&receiver);
        self.stack.go_to(self.stack.index() + 1);
        if self.stack.push_frame(
            callee.method,
            callee.arguments,
            callee.max_locals,
            callee.max_stack,
        ) {
            if callee.begins_uninit {
                self.stack.begin_init();
            }
            Flow::Moves
        } else {
            Flow::throws(Thrown::StackOverflowError)
        }
    }

    /// Calls the method that was selected for the class of the receiver.
    #[inline(always)]
    pub fn invoke(&mut self, selected: Selected) -> Flow
        requires index { self.old.stack.frame.index + 1 < 2 ^ 64 }
        requires fits { NotStuck (invoke selected self.old) }
        ensures does { Does (invoke selected self.old) result self.new }
        ensures method { result ≢ Flow.Goes }
    {
        match selected {
            Selected::Method(callee) => self.call(callee),
            Selected::Abstract => Flow::throws(Thrown::AbstractMethodError),
            Selected::NotPublic => Flow::throws(Thrown::IllegalAccessError),
            Selected::NotImplemented => Flow::throws(Thrown::IncompatibleClassChangeError),
        }
    }

    /// Executes ireturn.
    #[inline(always)]
    pub fn return_int(&mut self) -> Flow
        requires fits { NotStuck (return_int self.old) }
        ensures does { Does (return_int self.old) result self.new }
        ensures method { result ≢ Flow.Goes }
    {
        let n = self.pop_int();
        if self.stack.has_caller() {
            self.stack.pop_frame();
            self.push(Word::int(n));
            Flow::Moves
        } else {
            Flow::Ends(Ending::ReturnedInt(n))
        }
    }

    /// Executes areturn. The heap stays: a task that ends leaves there what it returns.
    #[inline(always)]
    pub fn return_reference(&mut self) -> Flow
        requires fits { NotStuck (return_reference self.old) }
        ensures does { Does (return_reference self.old) result self.new }
        ensures heap { self.new.heap ≡ self.old.heap }
        ensures method { result ≢ Flow.Goes }
    {
        let word = self.stack.pop();
        if self.stack.has_caller() {
            self.stack.pop_frame();
            self.push(word);
            Flow::Moves
        } else {
            Flow::Ends(self.returned(&word))
        }
    }

    // What a task ends with that returns this reference.
    #[inline(always)]
    fn returned(&self, word: &Word) -> Ending
        requires { NotStuck (on_returned Ends self.now word.now) }
        ensures { on_returned Ends self.now word.now ≡ Ends result }
    {
        match word.as_pointer() {
            Pointer::Null => Ending::ReturnedReference(None),
            Pointer::Address(address) => Ending::ReturnedReference(Some(address)),
            Pointer::Row(row) => Ending::ReturnedRemote(self.references.get(row)),
        }
    }

    /// Executes return.
    #[inline(always)]
    pub fn return_nothing(&mut self) -> Flow
        requires fits { NotStuck (return_nothing self.old) }
        ensures does { Does (return_nothing self.old) result self.new }
        ensures method { result ≢ Flow.Goes }
    {
        if self.stack.has_caller() {
            self.stack.pop_frame();
            Flow::Moves
        } else {
            Flow::Ends(Ending::ReturnedNothing)
        }
    }
}
