//! What crosses to another space in a remote call (Java RMI specification, 2.6).
ghost use Rattle.std.specs.Prelude.{◌≡◌, Some, IsSome, IfOk, option_map};
ghost use Rattle.vm_heap.specs.Heap.{cell_at};
ghost use Rattle.vm_act.specs.Next.{Does};
ghost use Rattle.vm_act.specs.Remote.{ask};
ghost use Rattle.vm_act.specs.Crossing.{Crosses, cell_value, reference_value, value_at, value_bytes};

use crate::asked::Asked;
use crate::ending::{Flow, Thrown};
use crate::machine::Machine;
use std::alloc::{AllocError, Global};
use vm_heap::{Pointer, Ref, Row, Value, Word};

/// What a parameter of a remote method takes.
#[derive(Clone, Copy, Debug, PartialEq, Eq)]
pub enum Parameter {
    /// An int or a boolean.
    Int,
    /// An int array.
    Ints,
    /// A reference of a remote interface.
    Reference,
}

/// The bytes of a call in a frame beside its arguments.
pub const CALL_BYTES: usize = 30;
/// How many bytes the body of a frame may have.
pub const MOST_BYTES: usize = 65_536;
// How many elements an array may have that crosses.
const MOST_ELEMENTS: u32 = 8_000;

impl Machine {
    /// Executes invokeinterface of an object of another space, once it is known whether its arguments
    /// cross: it asks for the call.
    pub fn ask_call(&mut self, target: Ref, method: u32, arguments: usize, crosses: bool) -> Flow
        ensures { Does (ask target method arguments crosses self.old) result self.new }
    {
        if crosses {
            Flow::Asks(Asked::Call {
                target,
                method,
                arguments,
            })
        } else {
            Flow::throws(Thrown::MarshalException)
        }
    }

    /// Returns how many bytes of a frame the operand with `depth` others above it takes as an argument
    /// for a parameter: `None` if it cannot cross.
    pub fn argument_bytes(&self, takes: Parameter, depth: usize) -> Option<usize>
        requires { IsSome (value_at takes depth self.now) }
        ensures { option_map (option_map value_bytes) (value_at takes depth self.now) ≡ Some result }
    {
        match takes {
            Parameter::Int => Some(5),
            _ => self.reference_bytes(takes, &self.stack.operand(depth)),
        }
    }

    fn reference_bytes(&self, takes: Parameter, word: &Word) -> Option<usize>
        requires { IsSome (reference_value takes self.now.references self.now.heap.cells word.now) }
        ensures { option_map (option_map value_bytes) (reference_value takes self.now.references self.now.heap.cells word.now) ≡ Some result }
    {
        match word.as_pointer() {
            Pointer::Null => Some(1),
            Pointer::Address(address) => self.cell_bytes(takes, address),
            Pointer::Row(_) => Some(27),
        }
    }

    fn cell_bytes(&self, takes: Parameter, address: usize) -> Option<usize>
        requires { IsSome (cell_at self.now.heap.cells address) }
        ensures { option_map (λ cell. option_map value_bytes (cell_value takes cell)) (cell_at self.now.heap.cells address) ≡ Some result }
    {
        match takes {
            Parameter::Ints => self.copy_bytes(address),
            _ => None,
        }
    }

    // The bytes of a copy of an array: `None` for an object, or too many elements.
    fn copy_bytes(&self, address: usize) -> Option<usize>
        requires { IsSome (cell_at self.now.heap.cells address) }
        ensures { option_map (λ cell. option_map value_bytes (cell_value Parameter.Ints cell)) (cell_at self.now.heap.cells address) ≡ Some result }
    {
        if self.heap.class_of(address).is_some() {
            return None;
        }
        let count = self.heap.length(address);
        if count > MOST_ELEMENTS {
            return None;
        }
        Some(5 + 4 * count as usize)
    }

    /// Returns the operand with `depth` others above it as it crosses for a parameter, an array by
    /// copy. The caller owes that it crosses.
    pub fn argument(
        &self,
        alloc: Global,
        takes: Parameter,
        depth: usize,
    ) -> Result<Value, AllocError>
        requires { Crosses (value_at takes depth self.now) }
        ensures { IfOk result (λ value. value_at takes depth self.now ≡ Some (Some value)) }
    {
        let word = self.stack.operand(depth);
        match takes {
            Parameter::Int => Ok(Value::Int(word.as_int())),
            _ => self.reference_argument(alloc, takes, &word),
        }
    }

    fn reference_argument(
        &self,
        alloc: Global,
        takes: Parameter,
        word: &Word,
    ) -> Result<Value, AllocError>
        requires { Crosses (reference_value takes self.now.references self.now.heap.cells word.now) }
        ensures { IfOk result (λ value. reference_value takes self.now.references self.now.heap.cells word.now ≡ Some (Some value)) }
    {
        match word.as_pointer() {
            Pointer::Null => Ok(Value::Null),
            Pointer::Address(address) => {
                let elements = self.heap.elements(alloc, address)?;
                Ok(Value::Ints(Row::new(elements)))
            }
            Pointer::Row(row) => Ok(Value::Ref(self.references.get(row))),
        }
    }
}
