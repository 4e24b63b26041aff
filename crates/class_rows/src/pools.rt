//! Constant pools.

use super::spelling::plain;
use cf_pool::{
    MemberRef, NameAndTypeRef, Pool, PoolLayout, ReadFault, Text, check_pool, read_layout,
    read_pool,
};
use std::alloc::Global;
use test_rows::{RowFault, put};

/// Prints what a pool says, where it ends, and whether its entries go together; or the fault of its
/// bytes.
pub fn play(alloc: Global, said: &mut Vec<u8>, bytes: &[u8]) -> Result<(), RowFault> {
    match pool_of(alloc, bytes) {
        Ok((pool, to)) => {
            put_pool(said, &pool)?;
            put(said, "up to", &to)?;
            put(said, "check", &check(alloc, bytes))
        }
        Err(fault) => put(said, "refused", &fault),
    }
}

// What the calls answer. These functions promise nothing, so that a row is proved at once.
fn pool_of(alloc: Global, bytes: &[u8]) -> Result<(Pool, usize), ReadFault> {
    read_pool(alloc, bytes, 0)
}

fn layout_of(alloc: Global, bytes: &[u8]) -> Result<(PoolLayout, usize), ReadFault> {
    read_layout(alloc, bytes, 0)
}

fn check(alloc: Global, bytes: &[u8]) -> Result<(), ReadFault> {
    let (layout, _) = layout_of(alloc, bytes)?;
    check_pool(alloc, &layout)
}

fn text_at(pool: &Pool, index: u16) -> Option<&Text> {
    pool.utf8(index)
}

fn integer_at(pool: &Pool, index: u16) -> Option<i32> {
    pool.integer(index)
}

fn class_at(pool: &Pool, index: u16) -> Option<&Text> {
    pool.class(index)
}

fn name_and_type_at(pool: &Pool, index: u16) -> Option<NameAndTypeRef<'_>> {
    pool.name_and_type(index)
}

fn member_at(pool: &Pool, index: u16) -> Option<MemberRef<'_>> {
    pool.member(index)
}

/// Prints what each index up to 255 and the last one name, by each look-up.
pub fn put_pool(said: &mut Vec<u8>, pool: &Pool) -> Result<(), RowFault> {
    for index in 0..=255 {
        put_index(said, pool, index)?;
    }
    put_index(said, pool, u16::MAX)
}

fn put_index(said: &mut Vec<u8>, pool: &Pool, index: u16) -> Result<(), RowFault> {
    if let Some(text) = text_at(pool, index) {
        put(said, "text", &(index, plain(text)))?;
    }
    if let Some(value) = integer_at(pool, index) {
        put(said, "int", &(index, value))?;
    }
    if let Some(name) = class_at(pool, index) {
        put(said, "class", &(index, plain(name)))?;
    }
    if let Some(of) = name_and_type_at(pool, index) {
        put(
            said,
            "name and type",
            &(index, plain(of.name), plain(of.descriptor)),
        )?;
    }
    match member_at(pool, index) {
        Some(member) => put_member(said, index, &member),
        None => Ok(()),
    }
}

fn put_member(said: &mut Vec<u8>, index: u16, member: &MemberRef<'_>) -> Result<(), RowFault> {
    let (class, name) = (plain(member.class), plain(member.name));
    let descriptor = plain(member.descriptor);
    put(
        said,
        "member",
        &(index, member.kind, class, name, descriptor),
    )
}
