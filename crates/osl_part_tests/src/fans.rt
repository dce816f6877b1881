//! Members at work side by side.

use osl_fan::{Gate, NoGate, Work, fan_out};
use std::sync::Wait;
use std::sync::atomic::{AtomicU64, Ordering};
use std::thread::Threads;

/// How often a member looks whether the others have begun.
const TURNS: u64 = 1_000_000_000;

/// A member that stays at work until as many have begun as are expected, and notes whether it saw that.
#[derive(Drop)]
struct Meeter<'a> {
    begun: &'a AtomicU64,
    expected: u64,
    calls: u32,
    met: bool,
}

impl Work for Meeter<'_> {
    ghost use Rattle.std.specs.Prelude.{◌≡◌, ◌+◌, ◌%◌, ◌^◌};

    ghost work_gives = { λ old new. new.calls ≡ (old.calls + 1) % 2 ^ 32 };

    fn work<R: Threads + Wait + Sync>(&mut self, _rt: &R) {
        self.calls = self.calls.wrapping_add(1);
        self.met = have_met(self.begun, self.expected);
    }
}

fn have_met(begun: &AtomicU64, expected: u64) -> bool {
    begun.fetch_add(1, Ordering::SeqCst);
    for _ in 0..TURNS {
        if begun.load(Ordering::SeqCst) >= expected {
            return true;
        }
    }
    false
}

fn new_meeter(begun: &AtomicU64, expected: u64) -> Meeter<'_> {
    Meeter {
        begun,
        expected,
        calls: 0,
        met: false,
    }
}

#[test]
fn members_of_both_lists_overlap(rt: HostRuntime) {
    let begun = AtomicU64::new(0);
    let mut workers = [new_meeter(&begun, 4), new_meeter(&begun, 4)];
    let mut editors = [new_meeter(&begun, 4), new_meeter(&begun, 4)];
    fan_out(&rt, &mut workers, &mut editors);
    for member in workers.iter().chain(editors.iter()) {
        assert_eq!(rt; member.calls, 1);
        assert!(rt; member.met, "a member was never at work beside the others");
    }
    assert_eq!(rt; begun.load(Ordering::SeqCst), 4);
}

#[test]
fn each_member_works_once(rt: HostRuntime) {
    let begun = AtomicU64::new(0);
    let mut workers = [
        new_meeter(&begun, 0),
        new_meeter(&begun, 0),
        new_meeter(&begun, 0),
    ];
    let mut editors: [Meeter<'_>; 0] = [];
    fan_out(&rt, &mut workers, &mut editors);
    for member in &workers {
        assert_eq!(rt; member.calls, 1);
    }
    NoGate.before(0, 0);
    NoGate.after(16, 0);
    assert_eq!(rt; begun.load(Ordering::SeqCst), 3);
}
