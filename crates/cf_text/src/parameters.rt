//! The types of a method's parameters, by their indices in a table of types.

ghost use Rattle.std.specs.Prelude.{◌≡◌, ◌+◌, ◌<◌, ◌^◌, length, slice_index_or};
ghost use Rattle.std.specs.Iterator.{YieldsFirstRef, item_count};
ghost use Rattle.cf_text.specs.TypesAt.{types_at, types_left};

use super::{FieldType, Row, Shared};
use std::marker::Model;
use std::ops::Index;

/// The types of a method's parameters, in order (JVMS 4.3.3). A contract sees it as the list of them.
/// The types stand in a table that all descriptors of a class share, so a parameter takes four bytes.
#[derive(Drop)]
pub struct Parameters {
    types: Shared<Row<FieldType>>,
    indices: Vec<u32>,
}

impl Model for Parameters {
    ghost use Rattle.std.specs.Prelude.{◌≡◌, List, length};
    ghost use Rattle.cf_text.specs.declared.types.FieldType.{FieldType as Kind};
    ghost use Rattle.cf_text.specs.TypesAt.{types_at};

    ghost Value = { List Kind };

    ghost view = { λ parameters. types_at parameters.types parameters.indices.items };

    ghost invariant = { λ parameters. length (types_at parameters.types parameters.indices.items) ≡ length parameters.indices.items };
}

impl Parameters {
    /// Returns the types of these indices. The caller owes that the table has each of them. It takes no
    /// memory.
    pub fn new(types: Shared<Row<FieldType>>, indices: Vec<u32>) -> Parameters
        requires within { length (types_at types indices.items) ≡ length indices.items }
        ensures { result ≡ types_at types indices.items }
    {
        Parameters { types, indices }
    }

    /// Returns how many parameters there are.
    pub fn len(&self) -> usize
        ensures count { result ≡ length self.now }
        ensures few { result + 1 < 2 ^ 64 }
    {
        self.indices.len()
    }

    /// Returns the types, one after the other.
    pub fn iter(&self) -> ParameterTypes<'_>
        ensures { types_left result ≡ self.now }
    {
        ParameterTypes {
            types: self.types.as_slice(),
            indices: self.indices.as_slice(),
        }
    }
}

impl Index<usize> for Parameters {
    type Output = FieldType;

    ghost can_index = { λ parameters index. index < length parameters };

    ghost index_gives = { λ parameters index kind. kind ≡ slice_index_or parameters index kind };

    fn index(&self, index: usize) -> &FieldType
        requires { index < length self.now }
        ensures { result.now ≡ slice_index_or self.now index result.now }
    {
        &self.types.as_slice()[self.indices[index] as usize]
    }
}

/// The types of parameters that are left.
#[derive(Clone, Copy)]
pub struct ParameterTypes<'a> {
    types: &'a [FieldType],
    indices: &'a [u32],
}

impl<'a> Iterator for ParameterTypes<'a> {
    type Item = &'a FieldType;

    ghost next_gives = { YieldsFirstRef types_left };

    ghost remaining = { item_count types_left };

    #[tactic(auto, unfolding(crate::specs::TypesAt::types_at), using(crate::proofs::Indexed::first_left, crate::proofs::Indexed::none_left))]
    fn next(&mut self) -> Option<&'a FieldType> {
        match self.indices {
            [] => None,
            [first, others @ ..] => match self.types.get(*first as usize) {
                Some(kind) => {
                    self.indices = others;
                    Some(kind)
                }
                None => {
                    self.indices = &[];
                    None
                }
            },
        }
    }
}
