//! Switches (JVMS 6.5).
ghost use Rattle.std.specs.Prelude.{◌≡◌};
ghost use Rattle.vm_act.specs.Next.{NotStuck, Does};
ghost use Rattle.vm_act.specs.Switches.{table_target, table_switch, lookup_target, lookup_switch, case_of, case_target};

use crate::ending::Flow;
use crate::machine::Machine;

impl Machine {
    /// Executes tableswitch: goes on at the target of the int on top, or at the default one. The
    /// first target is that of `low`.
    #[inline(always)]
    pub fn table_switch(&mut self, default: u16, low: i32, targets: &[u16]) -> Flow
        requires fits { NotStuck (table_switch default low targets.now self.old) }
        ensures does { Does (table_switch default low targets.now self.old) result self.new }
        ensures method { self.new.stack.frame.method ≡ self.old.stack.frame.method }
    {
        let n = self.pop_int();
        self.stack
            .go_to(table_target(default, low, targets, n) as usize);
        Flow::Goes
    }

    /// Executes lookupswitch: goes on at the target of the case whose key is the int on top, or at
    /// the default one. The keys and the targets of the cases are a slice each.
    #[inline(always)]
    pub fn lookup_switch(&mut self, default: u16, keys: &[i32], targets: &[u16]) -> Flow
        requires fits { NotStuck (lookup_switch default keys.now targets.now self.old) }
        ensures does { Does (lookup_switch default keys.now targets.now self.old) result self.new }
        ensures method { self.new.stack.frame.method ≡ self.old.stack.frame.method }
    {
        let n = self.pop_int();
        self.stack
            .go_to(lookup_target(default, keys, targets, n) as usize);
        Flow::Goes
    }
}

// The target of an int.
#[inline(always)]
fn table_target(default: u16, low: i32, targets: &[u16], n: i32) -> u16
    ensures { result ≡ table_target default low targets.now n }
{
    let distance = n as i64 - low as i64;
    if distance < 0 {
        return default;
    }
    match targets.get(distance.cast_unsigned() as usize) {
        Some(target) => *target,
        None => default,
    }
}

// The target of the case with a key.
#[inline(always)]
#[tactic(auto, unfolding(crate::specs::Switches::lookup_target))]
fn lookup_target(default: u16, keys: &[i32], targets: &[u16], n: i32) -> u16
    ensures { result ≡ lookup_target default keys.now targets.now n }
{
    case_target(default, targets, case_of(keys, n))
}

// The first case whose key it is.
#[inline(always)]
#[tactic(auto, unfolding(crate::specs::Switches::case_of))]
fn case_of(keys: &[i32], n: i32) -> Option<usize>
    ensures { result ≡ case_of keys.now n }
{
    keys.iter().position(|key| *key == n)
}

// The target of the case of an index.
#[inline(always)]
fn case_target(default: u16, targets: &[u16], case: Option<usize>) -> u16
    ensures { result ≡ case_target default targets.now case }
{
    match case {
        Some(case) => targets.get(case).copied().unwrap_or(default),
        None => default,
    }
}
