//! A plain body of reference lists, which goes through all calls and moments of one client and object, to
//! compare the lists with.

use super::lists::{clean, dirty, pass, until};
use dgc_list::RefList;
use space_ids::ObjId;
use std::alloc::Global;
use std::io::Write;
use test_rows::{RowFault, space_of};

// A call or moment, as one client and object see it.
#[derive(Clone, Copy)]
enum Told {
    Dirty { number: u64, expires: u64 },
    Clean { number: u64, strong: bool },
    Moment(u64),
}

// What is kept of a client's calls on an object.
#[derive(Clone, Copy)]
struct Kept {
    last: Option<u64>,
    strong: bool,
    expires: Option<u64>,
}

impl Kept {
    fn is_late(&self, number: u64) -> bool {
        match self.last {
            Some(last) => number <= last,
            None => false,
        }
    }

    fn is_over(&self, moment: u64) -> bool {
        match self.expires {
            Some(expires) => expires <= moment,
            None => false,
        }
    }

    fn after(self, told: Told) -> Kept {
        match told {
            Told::Dirty { number, expires } if !self.is_late(number) => Kept {
                last: Some(number),
                strong: self.strong,
                expires: Some(expires),
            },
            Told::Clean { number, strong } if !self.is_late(number) => {
                let strong = self.strong || strong;
                Kept {
                    last: if strong { Some(number) } else { None },
                    strong,
                    expires: None,
                }
            }
            Told::Moment(moment) if self.is_over(moment) => Kept {
                last: if self.strong { self.last } else { None },
                strong: self.strong,
                expires: None,
            },
            _ => self,
        }
    }
}

// The moment until which the entry stands, after all calls and moments, oldest first.
fn expires(told: &[Told]) -> Option<u64> {
    let mut kept = Kept {
        last: None,
        strong: false,
        expires: None,
    };
    for call in told {
        kept = kept.after(*call);
    }
    kept.expires
}

/// Makes calls of 100 clients on three of 100 objects each, one of them named twice, with a moment after each
/// 500, and prints for how many pairs of a client and an object the lists and the plain body differ.
pub fn compare(alloc: Global, said: &mut Vec<u8>, calls: u64) -> Result<(), RowFault> {
    let mut list = RefList::new(alloc);
    let mut plain = Vec::new(alloc);
    for _ in 0..10_000 {
        plain.push(Vec::new(alloc))?;
    }
    for step in 0..calls {
        if step % 500 == 0 {
            tell_moment(&mut list, &mut plain, step / 500 * 45)?;
        }
        tell(&mut list, &mut plain, step)?;
    }
    let (entries, differ) = count(&list, &plain);
    writeln!(said, "{entries} entries, {differ} differ")?;
    Ok(())
}

// Both get the same call.
fn tell(list: &mut RefList, plain: &mut Vec<Vec<Told>>, step: u64) -> Result<(), RowFault> {
    let of = step % 100;
    let mut objects = [ObjId(0); 4];
    for (index, object) in objects.iter_mut().enumerate() {
        *object = ObjId((step / 100 * 2 + index as u64 % 3) % 100);
    }
    let number = if step % 7 == 3 { step / 2 } else { step };
    let told = if step % 5 == 4 {
        let strong = step % 3 == 0;
        clean(list, &space_of(of), &objects, number, strong)?;
        Told::Clean { number, strong }
    } else {
        let period = step % 4 * 45;
        let _ = dirty(list, &space_of(of), &objects, number, period)?;
        Told::Dirty {
            number,
            expires: step / 500 * 45 + period,
        }
    };
    for object in objects {
        if let Some(pair) = plain.get_mut((of * 100 + object.0 % 100) as usize) {
            pair.push(told)?;
        }
    }
    Ok(())
}

fn tell_moment(
    list: &mut RefList,
    plain: &mut Vec<Vec<Told>>,
    moment: u64,
) -> Result<(), RowFault> {
    pass(list, moment)?;
    for pair in plain.iter_mut() {
        if !pair.is_empty() {
            pair.push(Told::Moment(moment))?;
        }
    }
    Ok(())
}

// How many entries stand, and for how many pairs both differ.
fn count(list: &RefList, plain: &[Vec<Told>]) -> (u64, u64) {
    let mut entries = 0_u64;
    let mut differ = 0_u64;
    for (at, told) in plain.iter().enumerate() {
        let at = at as u64;
        let entry = until(list, &space_of(at / 100), ObjId(at % 100));
        if entry.is_some() {
            entries = entries.wrapping_add(1);
        }
        if entry != expires(told) {
            differ = differ.wrapping_add(1);
        }
    }
    (entries, differ)
}
