//! Calls of a client's lease. Those that it promises something of stand in functions that promise nothing,
//! so that a row is proved at once.

use dgc_client::ClientLease;
use std::io::Write;
use test_rows::{RowFault, number, one_number};

/// Plays a call, and prints whether there is a lease and what is due.
pub fn play(
    lease: &mut ClientLease,
    said: &mut Vec<u8>,
    call: &str,
    words: &[&str],
) -> Result<(), RowFault> {
    take(lease, call, words)?;
    put(lease, said)
}

fn put(lease: &ClientLease, said: &mut Vec<u8>) -> Result<(), RowFault> {
    let has = if lease.lease.is_some() {
        "a lease"
    } else {
        "no lease"
    };
    writeln!(said, "{has}, due: {:?}", lease.due())?;
    Ok(())
}

fn take(lease: &mut ClientLease, call: &str, words: &[&str]) -> Result<(), RowFault> {
    match call {
        "dirty" => take_dirty(lease, words),
        "clean" => take_clean(lease, words),
        "moment" => take_moment(lease, words),
        "hold" | "drop" if words.is_empty() => {
            take_holder(lease, call);
            Ok(())
        }
        _ => Err(RowFault::Bad),
    }
}

fn take_holder(lease: &mut ClientLease, call: &str) {
    if call == "hold" {
        lease.hold();
    } else {
        lease.drop_holder();
    }
}

fn take_moment(lease: &mut ClientLease, words: &[&str]) -> Result<(), RowFault> {
    lease.moment(one_number(words)?);
    Ok(())
}

fn take_dirty(lease: &mut ClientLease, words: &[&str]) -> Result<(), RowFault> {
    match words {
        [of, "answered", period] => lease.dirty_answered(number(of)?, number(period)?),
        [of, what] => dirty(lease, number(of)?, what)?,
        _ => return Err(RowFault::Bad),
    }
    Ok(())
}

fn dirty(lease: &mut ClientLease, of: u64, what: &str) -> Result<(), RowFault> {
    match what {
        "made" => lease.dirty_made(of),
        "sent" => lease.dirty_sent(of),
        "failed" => lease.dirty_failed(of),
        _ => return Err(RowFault::Bad),
    }
    Ok(())
}

fn take_clean(lease: &mut ClientLease, words: &[&str]) -> Result<(), RowFault> {
    let [of, what] = words else {
        return Err(RowFault::Bad);
    };
    let of = number(of)?;
    match *what {
        "made" => lease.clean_made(of),
        "answered" => lease.clean_answered(of),
        "failed" => lease.clean_failed(of),
        _ => return Err(RowFault::Bad),
    }
    Ok(())
}
