//! What words of rows stand for.

use crate::RowFault;
use space_ids::{ClassId, ObjId, Ref, Uuid, Value};
use std::alloc::Global;

/// Returns the words that single spaces part: none for an empty text.
pub fn words_of<'a>(alloc: Global, text: &'a str) -> Result<Vec<&'a str>, RowFault> {
    if text.is_empty() {
        return Ok(Vec::new(alloc));
    }
    Ok(text.split(' ').collect(alloc)?)
}

/// Returns the word of a row that has one.
pub fn one_word<'a>(words: &[&'a str]) -> Result<&'a str, RowFault> {
    let [word] = words else {
        return Err(RowFault::Bad);
    };
    Ok(*word)
}

/// Returns the number of a row that has one.
pub fn one_number(words: &[&str]) -> Result<u64, RowFault> {
    number(one_word(words)?)
}

/// Returns the number that a word spells.
pub fn number(word: &str) -> Result<u64, RowFault> {
    word.parse::<u64>().map_err(|_| RowFault::Bad)
}

/// Returns the index that a word spells.
pub fn index(word: &str) -> Result<usize, RowFault> {
    word.parse::<usize>().map_err(|_| RowFault::Bad)
}

/// Returns the class of the number that a word spells.
pub fn class(word: &str) -> Result<ClassId, RowFault> {
    let number = word.parse::<u16>().map_err(|_| RowFault::Bad)?;
    Ok(ClassId(number))
}

/// Returns the object of the id that a word spells.
pub fn object(word: &str) -> Result<ObjId, RowFault> {
    Ok(ObjId(number(word)?))
}

/// Returns the space of a number.
pub fn space_of(number: u64) -> Uuid {
    Uuid::from_u64_pair(0, number)
}

/// Returns the space of the number that a word spells.
pub fn space(word: &str) -> Result<Uuid, RowFault> {
    Ok(space_of(number(word)?))
}

/// Returns the value of a word: `null`, an int, or a reference `SPACE:OBJECT:CLASS`.
pub fn value(alloc: Global, word: &str) -> Result<Value, RowFault> {
    if word == "null" {
        return Ok(Value::Null);
    }
    if let Ok(int) = word.parse::<i32>() {
        return Ok(Value::Int(int));
    }
    let parts: Vec<&str> = word.split(':').collect(alloc)?;
    match parts.as_slice() {
        [of, id, of_class] => Ok(Value::Ref(Ref {
            space: space(of)?,
            id: object(id)?,
            class: class(of_class)?,
        })),
        _ => Err(RowFault::Bad),
    }
}

/// Returns the values of words.
pub fn values(alloc: Global, words: &[&str]) -> Result<Vec<Value>, RowFault> {
    let mut values = Vec::new(alloc);
    for word in words {
        values.push(value(alloc, word)?)?;
    }
    Ok(values)
}
