//! Lists of types that share their fronts.
//!
//! The frames of a StackMapTable mostly repeat the local variables of the frame before. So the
//! types of a method's frames stand in one row of nodes, and a list is given by the node of its
//! last type.

ghost use Rattle.std.specs.Prelude.{◌≡◌};
ghost use Rattle.ver_frames.specs.StackMapFormat.{is_uninit_this};

use super::VType;
use std::alloc::{AllocError, Global};
use std::marker::Model;

// A type, and the node of the type before it.
#[derive(Clone, Copy, Debug, PartialEq, Eq)]
pub(crate) struct TypeNode {
    pub(crate) kind: VType,
    pub(crate) before: usize,
}

// A list of types: the node of its last, and how many there are.
#[derive(Clone, Copy, Debug, PartialEq, Eq)]
pub(crate) struct TypeChain {
    pub(crate) last: usize,
    pub(crate) count: usize,
}

// The types of a method's frames. A contract sees them as the row of nodes.
#[derive(Debug, Drop)]
pub(crate) struct TypeNodes {
    nodes: Vec<TypeNode>,
}

impl Model for TypeNodes {
    ghost use Rattle.std.specs.Prelude.{List};
    ghost use Rattle.ver_frames.specs.declared.chain.TypeNode.{TypeNode};

    ghost Value = { List TypeNode };

    ghost view = { λ t. t.nodes.items };
}

// Whether a type is that of the receiver before another `<init>` has run on it.
fn is_uninit_this(kind: VType) -> bool
    ensures { result ≡ is_uninit_this kind }
{
    matches!(kind, VType::UninitializedThis)
}

impl TypeNodes {
    ghost use Rattle.std.specs.Prelude.{◌≡◌, ◌+◌, ◌^◌, ◌<◌, ◌≤◌, ◌∷◌, ◌++◌, [], IfOk, Some, length, slice_get, take};
    ghost use Rattle.std.specs.List.{list_any};
    ghost use Rattle.ver_frames.specs.Chains.{Keeps, Stands, StandTo, types_of};
    ghost use Rattle.ver_frames.specs.StackMapFormat.{is_uninit_this};

    // No types.
    pub(crate) fn new(alloc: Global) -> TypeNodes
        ensures { result ≡ [] }
    {
        TypeNodes {
            nodes: Vec::new(alloc),
        }
    }

    // The node at an index.
    pub(crate) fn node(&self, index: usize) -> TypeNode
        requires { index < length self.now }
        ensures { slice_get self.now index ≡ Some result }
    {
        self.nodes[index]
    }

    // How many types a chain has.
    #[tactic(auto, using(crate::proofs::Chains::chain_long))]
    pub(crate) fn count(&self, chain: TypeChain) -> usize
        requires { Stands self.now chain }
        ensures { result ≡ length (types_of self.now chain) }
    {
        chain.count
    }

    // The chain with one more type at its end. If memory runs out, nothing changes.
    pub(crate) fn append(&mut self, chain: TypeChain, kind: VType) -> Result<TypeChain, AllocError>
        requires stands { Stands self.old chain }
        requires few { chain.count + 1 < 2 ^ 64 }
        ensures types { IfOk result (λ longer. types_of self.new longer ≡ types_of self.old chain ++ kind ∷ []) }
        ensures stands { IfOk result (Stands self.new) }
        ensures count { IfOk result (λ longer. longer.count ≡ chain.count + 1) }
        ensures kept { Keeps self.old self.new }
    {
        let last = self.nodes.len();
        self.nodes.push(TypeNode {
            kind,
            before: chain.last,
        })?;
        Ok(TypeChain {
            last,
            count: chain.count + 1,
        })
    }

    // A chain of these types. If memory runs out, the nodes before it stay.
    pub(crate) fn append_all(&mut self, types: &[VType]) -> Result<TypeChain, AllocError>
        ensures types { IfOk result (λ chain. types_of self.new chain ≡ types.now) }
        ensures stands { IfOk result (Stands self.new) }
    {
        let mut chain = TypeChain { last: 0, count: 0 };
        for kind in types {
            chain = self.append(chain, *kind)?;
        }
        Ok(chain)
    }

    // The chain of its first types.
    pub(crate) fn shorten(&self, chain: TypeChain, keeps: usize) -> TypeChain
        requires stands { Stands self.now chain }
        requires within { keeps ≤ chain.count }
        ensures types { types_of self.now result ≡ take keeps (types_of self.now chain) }
        ensures stands { Stands self.now result }
        ensures count { result.count ≡ keeps }
    {
        let mut last = chain.last;
        let mut count = chain.count;
        while count > keeps {
            last = self.node(last).before;
            count -= 1;
        }
        TypeChain { last, count }
    }

    // Writes the types of a chain over `types`, which has the chain's length.
    pub(crate) fn write(&self, chain: TypeChain, types: &mut Vec<VType>)
        requires stands { Stands self.now chain }
        requires long { length types.old.items ≡ chain.count }
        ensures { types.new.items ≡ types_of self.now chain }
    {
        let mut last = chain.last;
        let mut count = chain.count;
        while count > 0 {
            let node = self.node(last);
            count -= 1;
            types[count] = node.kind;
            last = node.before;
        }
    }

    // Whether a type of a chain is that of the receiver before another `<init>` has run on it.
    pub(crate) fn has_uninit_this(&self, chain: TypeChain) -> bool
        requires { Stands self.now chain }
        ensures { result ≡ list_any is_uninit_this (types_of self.now chain) }
    {
        let mut last = chain.last;
        let mut count = chain.count;
        while count > 0 {
            let node = self.node(last);
            if is_uninit_this(node.kind) {
                return true;
            }
            count -= 1;
            last = node.before;
        }
        false
    }
}
