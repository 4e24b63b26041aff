//! Words that spell arguments.

ghost use Rattle.std.specs.Prelude.{◌≡◌, ◌∷◌, ◌++◌, List, [], ℤ, ℕ, IfOk, MatchOption};
ghost use Rattle.sp_arguments.specs.Arguments.{IsNumber, IsList, Spells, IsBracketed};

use space_ids::{Row, Value};
use std::alloc::{AllocError, Global};

/// Returns the value that a word stands for: a whole number of 32 bits, `null`, or an array as
/// `[1,-2]` or `[]`. `None` if it is none of these: a number has digits after at most a `-`, and an
/// array has no spaces.
pub fn argument_of(alloc: Global, word: &str) -> Result<Option<Value>, AllocError>
    // A value that the word spells, and none only if it spells none.
    ensures { IfOk result (λ value. MatchOption value ((other : Value) → Spells word.now other → ⊥) (Spells word.now)) }
{
    if word == "null" {
        return Ok(Some(Value::Null));
    }
    match array_part(word) {
        Some(items) => match ints_of(alloc, items)? {
            Some(ints) => Ok(Some(Value::Ints(ints))),
            None => Ok(None),
        },
        None => match number_of(word) {
            Some(int) => Ok(Some(Value::Int(int))),
            None => Ok(None),
        },
    }
}

// What stands between the brackets of an array.
fn array_part(word: &str) -> Option<&str>
    ensures { MatchOption result ((inside : List ℕ) → IsBracketed word.now inside → ⊥) (λ inside. IsBracketed word.now inside.now) }
{
    match word.strip_prefix('[') {
        Some(rest) => rest.strip_suffix(']'),
        None => None,
    }
}

fn ints_of(alloc: Global, items: &str) -> Result<Option<Row<i32>>, AllocError>
    ensures { IfOk result (λ ints. MatchOption ints ((ns : List ℤ) → IsList items.now ns → ⊥) (IsList items.now)) }
{
    let mut ints = Vec::new(alloc);
    if items.is_empty() {
        return Ok(Some(Row::new(ints)));
    }
    let mut rest = items;
    while let Some((item, following)) = rest.split_once(',') {
        match number_of(item) {
            Some(int) => ints.push(int)?,
            None => return Ok(None),
        }
        rest = following;
    }
    match number_of(rest) {
        Some(int) => ints.push(int)?,
        None => return Ok(None),
    }
    Ok(Some(Row::new(ints)))
}

fn number_of(word: &str) -> Option<i32>
    ensures { MatchOption result ((n : ℤ) → IsNumber word.now n → ⊥) (IsNumber word.now) }
{
    if word.starts_with('+') {
        return None;
    }
    word.parse::<i32>().ok()
}
