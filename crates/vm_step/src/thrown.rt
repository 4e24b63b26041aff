//! The classes of which the machine throws objects.
ghost use Rattle.std.specs.Prelude.{◌≡◌, ◌+◌, Some, IsSome};
ghost use Rattle.cls_set.specs.Classes.{number_of};
ghost use Rattle.vm_step.specs.Thrown.{AreThrown, number_in};

use cls_link::{ClassId, ClassSet, Linked};
use vm_code::Thrown;

/// The numbers of the classes of which the machine throws objects.
#[derive(Clone, Copy)]
pub struct ThrownClasses {
    pub arithmetic_exception: ClassId,
    pub null_pointer_exception: ClassId,
    pub class_cast_exception: ClassId,
    pub negative_array_size_exception: ClassId,
    pub array_index_out_of_bounds_exception: ClassId,
    pub out_of_memory_error: ClassId,
    pub stack_overflow_error: ClassId,
    pub abstract_method_error: ClassId,
    pub illegal_access_error: ClassId,
    pub incompatible_class_change_error: ClassId,
    // Where an argument or a result cannot cross.
    pub marshal_exception: ClassId,
}

impl ThrownClasses {
    /// Those of a class set: they stand in each.
    pub fn of(linked: &Linked) -> ThrownClasses
        ensures { AreThrown linked.now.classes result }
    {
        let _methods = linked.len();
        let set = linked.set();
        ThrownClasses {
            arithmetic_exception: class_named(set, b"java/lang/ArithmeticException"),
            null_pointer_exception: class_named(set, b"java/lang/NullPointerException"),
            class_cast_exception: class_named(set, b"java/lang/ClassCastException"),
            negative_array_size_exception: class_named(
                set,
                b"java/lang/NegativeArraySizeException",
            ),
            array_index_out_of_bounds_exception: class_named(
                set,
                b"java/lang/ArrayIndexOutOfBoundsException",
            ),
            out_of_memory_error: class_named(set, b"java/lang/OutOfMemoryError"),
            stack_overflow_error: class_named(set, b"java/lang/StackOverflowError"),
            abstract_method_error: class_named(set, b"java/lang/AbstractMethodError"),
            illegal_access_error: class_named(set, b"java/lang/IllegalAccessError"),
            incompatible_class_change_error: class_named(
                set,
                b"java/lang/IncompatibleClassChangeError",
            ),
            marshal_exception: class_named(set, b"java/rmi/MarshalException"),
        }
    }

    /// The number of the class of what was thrown.
    pub fn number(&self, thrown: Thrown) -> ClassId
        ensures { result ≡ number_in self.now thrown }
    {
        match thrown {
            Thrown::ArithmeticException => self.arithmetic_exception,
            Thrown::NullPointerException => self.null_pointer_exception,
            Thrown::ClassCastException => self.class_cast_exception,
            Thrown::NegativeArraySizeException => self.negative_array_size_exception,
            Thrown::ArrayIndexOutOfBoundsException => self.array_index_out_of_bounds_exception,
            Thrown::OutOfMemoryError => self.out_of_memory_error,
            Thrown::StackOverflowError => self.stack_overflow_error,
            Thrown::AbstractMethodError => self.abstract_method_error,
            Thrown::IllegalAccessError => self.illegal_access_error,
            Thrown::IncompatibleClassChangeError => self.incompatible_class_change_error,
            Thrown::MarshalException => self.marshal_exception,
        }
    }
}

fn class_named(set: &ClassSet, name: &[u8]) -> ClassId
    requires { IsSome (number_of set.now name.now) }
    ensures { number_of set.now name.now ≡ Some result }
{
    set.number(name).unwrap()
}
