//! Of which space a machine is.

use space_ids::Uuid;
use std::alloc::Global;
use vm_step::{Limits, Program};

/// What the machines of a space are made of beside the records of their tasks.
#[derive(Drop)]
pub(crate) struct Home<'p> {
    pub(crate) alloc: Global,
    pub(crate) id: Uuid,
    pub(crate) limits: Limits,
    pub(crate) program: &'p Program,
}
