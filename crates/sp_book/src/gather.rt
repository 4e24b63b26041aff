//! All passes are in: a book is taken apart.

ghost use Rattle.std.specs.Prelude.{◌≡◌, ◌+◌, ◌≤◌, ℕ, [], All, IfErr, IfNone, IfOk, IsSome, length, map, true, vec_len};
ghost use Rattle.std.specs.List.{sum_by};
ghost use Rattle.crossbeam_queue.specs.Passes.{IsPassOf, view};
ghost use Rattle.sp_book.specs.Passes.{TookEach, calls_since, standing};
ghost use Rattle.sp_history.specs.Books.{Replays, run_from};
ghost use Rattle.sp_history.specs.Entries.{entry_of, numbered_entry, outputs_in_all};
ghost use Rattle.sp_history.specs.Logs.{IsKept, start_of, unnumbered};
ghost use Rattle.sp_rules.specs.State.{opening};

use crate::book::Book;
use crate::locked::Locked;
use crate::naming::Naming;
use crate::pass::Pass;
use crate::same::same_call;
use sp_history::{Call, Entry, Gathered, History};
use sp_lender::Lender;
use sp_ready::{Queue, Seat, account, return_seat};
use std::sync::Mutex;
use std::sync::ledger::Share;
use thiserror::Error;

/// Why a book is not taken apart.
#[derive(Clone, Copy, Debug, PartialEq, Eq, Error)]
pub enum Stray {
    /// 88: the entries under the number of this pass are not those of its calls.
    #[error("Differs({0})")]
    Differs(u32),
    /// 97: this many passes are missing.
    #[error("PassesOut({0})")]
    PassesOut(u64),
}

// Whether the entries under a number are, in order, those of the calls.
fn same_calls(entries: &[Entry], number: u32, calls: &[Call]) -> bool
    ensures { result ≡ true → standing number (map numbered_entry entries.now) ≡ map entry_of calls.now }
{
    let mut at = 0;
    for index in 0..entries.len() {
        let entry = &entries[index];
        if entry.by == number {
            if at >= calls.len() || !same_call(&entry.call, &calls[at]) {
                return false;
            }
            at += 1;
        }
    }
    at == calls.len()
}

// Whether the entries under the number of a pass are those of its calls since the last checkpoint, where so many
// entries are cut.
fn stands<N: Naming>(entries: &[Entry], cut: u64, pass: &Pass<N>) -> bool
    ensures { result ≡ true → standing pass.now.number (map numbered_entry entries.now)
        ≡ calls_since cut pass.now }
{
    if pass.since < cut {
        same_calls(entries, pass.number, &[])
    } else {
        same_calls(entries, pass.number, pass.list.as_slice())
    }
}

// The lower of a number and another, if there is another.
fn lower(other: Option<u32>, number: u32) -> Option<u32>
    ensures { IsSome result }
{
    match other {
        Some(other) if other < number => Some(other),
        _ => Some(number),
    }
}

// The lowest number of a pass under which other entries stand than those of its calls.
fn differing<N: Naming>(entries: &[Entry], cut: u64, passes: &Vec<Pass<N>>) -> Option<u32>
    ensures { IfNone result (All (λ pass. standing pass.number (map numbered_entry entries.now)
        ≡ calls_since cut pass) passes.now.items) }
{
    let mut lowest: Option<u32> = None;
    for index in 0..passes.len() {
        let pass = &passes[index];
        if !stands(entries, cut, pass) {
            lowest = lower(lowest, pass.number);
        }
    }
    lowest
}

// Why the passes are not all those of the book, or their calls not its entries.
fn find_stray<N: Naming, S: Lender + Drop>(
    history: &History<N, S>,
    out: u32,
    passes: &Vec<Pass<N>>,
) -> Option<Stray>
    ensures whole { IfNone result (out ≤ vec_len passes.now) }
    ensures stand { IfNone result (All (λ pass. standing pass.number history.now.entries
        ≡ calls_since (length history.now.cut) pass) passes.now.items) }
{
    let missing = (out as usize).saturating_sub(passes.len());
    if missing > 0 {
        return Some(Stray::PassesOut(missing as u64));
    }
    match differing(history.entries(), history.cut(), passes) {
        Some(number) => Some(Stray::Differs(number)),
        None => None,
    }
}

// The share and the seat of the book, with those of all passes.
fn merged<N: Naming>(
    queue: &Queue,
    mut rest: Share<N>,
    mut writer: Seat,
    mut passes: Vec<Pass<N>>,
) -> (Share<N>, Seat)
    requires queue { queue.now.table.shared.table_id ≡ N.table }
    requires writer { IsPassOf queue.now writer }
    requires apart { rest.parts ≤ N.parts }
    ensures parts { result.0.parts ≡ rest.parts + vec_len passes }
    ensures apart { result.0.parts ≤ N.parts }
    ensures amount { result.0.amount ≡ rest.amount + sum_by (λ pass. length pass.calls) passes.items }
    ensures queue { IsPassOf queue.now result.1 }
    ensures seats { (view result.1).parts ≡ (view writer).parts + vec_len passes }
    ensures pushes { (view result.1).pushes ≡ (view writer).pushes }
    ensures taken { (h : ℕ × ℕ → ℕ) → sum_by h (view result.1).taken ≡ sum_by h (view writer).taken + sum_by (λ pass. sum_by h pass.known.taken) passes.items }
{
    while let Some(pass) = passes.pop() {
        let Pass {
            number: _,
            list: _,
            older: _,
            since: _,
            past: _,
            hand: _,
            share,
            seat,
        } = pass;
        rest.merge(share);
        return_seat(queue, &mut writer, seat);
    }
    (rest, writer)
}

impl<N: Naming, S: Lender + Drop> Book<N, S> {
    /// Takes the book apart, of which all passes are here. It answers the space with the entries since the last
    /// checkpoint: those under the number of each pass are, in order, those of its list, which is empty if it
    /// began before; with those that were cut there are as many as all passes made; and each notice was taken
    /// once.
    ///
    /// If passes are missing, or entries differ, the book and the passes are handed back; that passes are
    /// missing comes first.
    pub fn gather(
        self,
        passes: Vec<Pass<N>>,
    ) -> Result<Gathered<S>, (Stray, Book<N, S>, Vec<Pass<N>>)>
        requires { N.all ≡ N.parts }
        ensures base { IfOk result (λ gathered. IsKept (S.is_base N.setting) N.setting
            gathered.cut.value gathered.base) }
        ensures space { IfOk result (λ gathered. S.is_space N.setting
            (run_from N.setting (start_of N.setting gathered.cut.value)
            (unnumbered (map numbered_entry gathered.entries.items))) gathered.space) }
        ensures past { IfOk result (λ gathered. Replays N.setting opening []
            (unnumbered gathered.cut.value) gathered.before.value) }
        ensures replays { IfOk result (λ gathered. Replays N.setting
            (start_of N.setting gathered.cut.value) gathered.before.value
            (unnumbered (map numbered_entry gathered.entries.items))
            (outputs_in_all gathered.waiting.items)) }
        ensures stand { IfOk result (λ gathered. All (λ pass.
            standing pass.number (map numbered_entry gathered.entries.items)
            ≡ calls_since (length gathered.cut.value) pass) passes.items) }
        ensures count { IfOk result (λ gathered. length gathered.cut.value
            + vec_len gathered.entries ≡ sum_by (λ pass. length pass.calls) passes.items) }
        ensures notices { IfOk result (λ _. TookEach passes.items) }
        ensures back { IfErr result (λ back. back.2.items ≡ passes.items) }
    {
        let Book {
            locked,
            queue,
            bell,
        } = self;
        let inside = locked.into_inner();
        if let Some(stray) = find_stray(&inside.history, inside.passes, &passes) {
            let locked = Mutex::new(inside);
            let book = Book {
                locked,
                queue,
                bell,
            };
            return Err((stray, book, passes));
        }
        let Locked {
            history,
            writer,
            rest,
            mut tally,
            passes: _,
        } = inside;
        let (mut all, mut writer) = merged(&queue, rest, writer, passes);
        tally.audit(&mut all);
        account(&queue, &mut writer);
        Ok(history.into_parts())
    }
}
