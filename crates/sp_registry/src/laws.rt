//! What the definitions of bindings say.

ghost use Rattle.std.specs.Prelude.{◌≡◌, ℕ, List, Some, None, IsSome, map, if◌then◌else◌};
ghost use Rattle.std.specs.Str.{bytes_eq};
ghost use Rattle.space_ids.specs.declared.ids.ObjId.{ObjId};
ghost use Rattle.sp_registry.specs.declared.registry.Binding.{Binding};
ghost use Rattle.sp_registry.specs.Bindings.{lookup, rebound, unbound, HasNamesOnce};

/// A name is bound to the object of its last binding, and to none once it was taken away. No other
/// name is touched, and a name that is bound anew keeps its index.
pub fn a_change_touches_one_name()
    ensures last { (bindings : List Binding) (name other : List ℕ) (object : ObjId)
        → lookup (rebound bindings name object) other
        ≡ (if bytes_eq name other then Some object else lookup bindings other) }
    ensures index { (bindings : List Binding) (name : List ℕ) (object : ObjId)
        → IsSome (lookup bindings name) → map (λ (b : Binding). b.name)
        (rebound bindings name object) ≡ map (λ (b : Binding). b.name) bindings }
    ensures gone { (bindings : List Binding) (name other : List ℕ) → HasNamesOnce bindings
        → lookup (unbound bindings name) other
        ≡ (if bytes_eq name other then None else lookup bindings other) }
{}
