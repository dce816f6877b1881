//! Threads share a page under a lock.
ghost use Rattle.std.specs.Prelude.{◌≡◌, ◌+◌, ◌<◌, ◌++◌, ◌∷◌, [], ℕ, List, length, Some, None, true, MatchBool};
ghost use mathlib.Core.List.{IsPrefix};
ghost use Rattle.std.specs.Thread.{IsSync};
ghost use Rattle.osl_turnlock.specs.Growth.{KeepsMark};
ghost use Rattle.osl_turnlock.specs.Seats.{seat_list, seat_mark, seat_spare, seat_own, seat_set, IsOf, IsFree, IsAlone};

use crate::{Seat, TurnLock};
use page::Page;
use std::sync::Wait;
use std::test::Fail;
use std::thread::{Threads, join};

mod page;

/// Adds a line in a turn, where there is memory for it.
fn write<R: Wait>(rt: &R, lock: &TurnLock<Page>, seat: &mut Seat<Page>, line: u64) -> bool
    requires { IsOf lock.now seat.old × IsFree seat.old }
    ensures seat { IsOf lock.now seat.new × IsFree seat.new × (seat_spare seat.new ≡ seat_spare seat.old) }
    ensures list { MatchBool result
        ((more : List ℕ) × (seat_list seat.new ≡ seat_list seat.old ++ more ++ line ∷ []))
        (IsPrefix (seat_list seat.old) (seat_list seat.new)) }
    ensures own { MatchBool result (seat_own seat.new ≡ seat_own seat.old + 1) (seat_own seat.new ≡ seat_own seat.old) }
    ensures set { (seat_set seat.new ≡ seat_set seat.old) × KeepsMark (seat_mark seat.old) (seat_mark seat.new) }
{
    let mut turn = lock.enter(rt, seat);
    let done = turn.value().write(line);
    turn.leave();
    done
}

/// Closes the page in a turn.
fn shut<R: Wait>(rt: &R, lock: &TurnLock<Page>, seat: &mut Seat<Page>) -> u64
    requires { IsOf lock.now seat.old × IsFree seat.old }
    ensures seat { IsOf lock.now seat.new × IsFree seat.new × (seat_spare seat.new ≡ seat_spare seat.old) }
    ensures list { IsPrefix (seat_list seat.old) (seat_list seat.new) × (seat_own seat.new ≡ seat_own seat.old) }
    ensures mark { (seat_mark seat.new ≡ Some result) × KeepsMark (seat_mark seat.old) (Some result) }
    ensures set { IsAlone lock.now seat.old → seat_mark seat.old ≡ None → seat_set seat.new ≡ true }
{
    let mut turn = lock.enter(rt, seat);
    let at = turn.value().shut();
    turn.leave();
    at
}

/// Adds so many lines, each with the writer's number, in their order. After each one a second seat is split off, looks,
/// and is joined again.
fn write_many<R: Wait>(
    rt: &R,
    lock: &TurnLock<Page>,
    mut seat: Seat<Page>,
    writer: u64,
    lines: u64,
) -> Seat<Page>
    requires seat { IsOf lock.now seat × IsFree seat }
    requires small { (writer < 16) × (lines < 10000) }
    ensures seat { IsOf lock.now result × IsFree result × (seat_spare result ≡ seat_spare seat) }
{
    for i in 0..lines {
        write(rt, lock, &mut seat, writer * 10000 + i);
        if seat.spare() > 0 {
            let mut second = lock.split(&mut seat, 0);
            lock.count(&mut second);
            lock.join(&mut seat, second);
        }
    }
    seat
}

/// Has so many lines written by each of 2^depth writers, whose numbers are 2^depth times `first` and on.
#[cycle(write_all)]
fn write_all<R: Threads + Wait + Sync>(
    rt: &R,
    lock: &TurnLock<Page>,
    mut seat: Seat<Page>,
    depth: u32,
    first: u64,
    lines: u64,
) -> Seat<Page>
    requires seat { IsOf lock.now seat × IsFree seat }
    requires small { (first < 16) × (lines < 10000) }
    ensures seat { IsOf lock.now result × IsFree result × (seat_spare result ≡ seat_spare seat) }
{
    if depth == 0 || seat.spare() == 0 || first >= 8 {
        return write_many(rt, lock, seat, first, lines);
    }
    let give = (seat.spare() - 1) / 2;
    let other = lock.split(&mut seat, give);
    let (mut seat, other) = join(
        rt,
        || -> Seat<Page>
            requires { IsSync R.row × IsOf lock.now seat × IsFree seat × (first < 8) × (lines < 10000) × (0 < depth) }
            ensures { IsOf lock.entry.now result × IsFree result × (seat_spare result ≡ seat_spare seat) }
        { write_all(rt, lock, seat, depth - 1, 2 * first, lines) },
        || -> Seat<Page>
            requires { IsSync R.row × IsOf lock.now other × IsFree other × (first < 8) × (lines < 10000) × (0 < depth) }
            ensures { IsOf lock.entry.now result × IsFree result × (seat_spare result ≡ seat_spare other) }
        { write_all(rt, lock, other, depth - 1, 2 * first + 1, lines) },
    );
    lock.join(&mut seat, other);
    seat
}

/// Looks how long the page is.
fn look(lock: &TurnLock<Page>, mut seat: Seat<Page>) -> (Seat<Page>, u64)
    requires { IsOf lock.now seat × IsFree seat }
    ensures seat { IsOf lock.now result.0 × IsFree result.0 × (seat_spare result.0 ≡ seat_spare seat) }
    ensures length { result.1 ≡ length (seat_list result.0) }
{
    let found = lock.count(&mut seat);
    (seat, found)
}

/// Each writer has so many lines on the page, in their order, and there are no others.
fn stand_in_order(page: &Page, writers: &mut [u64], lines: u64) -> bool {
    for line in page.lines() {
        match writers.get_mut((*line / 10000) as usize) {
            Some(next) if *next == *line % 10000 => *next += 1,
            _ => return false,
        }
    }
    writers.iter().all(|next| *next == lines)
}

#[test]
fn a_seat_is_split_and_joined(rt: HostRuntime) -> Result<(), Fail> {
    let Ok((lock, mut first)) = TurnLock::make(rt.alloc(), Page::new(rt.alloc(), 7), 2) else {
        panic!(rt; "memory")
    };
    assert!(rt; first.spare() == 1 && first.seen() == 0 && first.frozen().is_none());
    let mut second = lock.split(&mut first, 0);
    assert!(rt; first.spare() == 0 && second.spare() == 0);
    assert!(rt; write(&rt, &lock, &mut first, 5) && first.seen() == 1 && second.seen() == 0);
    assert!(rt; lock.count(&mut second) == 1 && second.seen() == 1);
    assert!(rt; write(&rt, &lock, &mut second, 6) && shut(&rt, &lock, &mut second) == 2);
    assert!(rt; second.frozen() == Some(2) && first.frozen().is_none() && first.seen() == 1);
    lock.join(&mut first, second);
    assert!(rt; first.spare() == 1 && first.seen() == 2 && first.frozen() == Some(2));
    let page = lock.close(first);
    assert_eq!(rt; page.lines(), [5, 6].as_slice());
    Ok(())
}

#[test]
fn two_threads_take_turns(rt: HostRuntime) -> Result<(), Fail> {
    let Ok((lock, mut first)) = TurnLock::make(rt.alloc(), Page::new(rt.alloc(), 7), 3) else {
        panic!(rt; "memory")
    };
    let onlooker = lock.split(&mut first, 0);
    let shared = &lock;
    let (seat, (mut onlooker, found)) = join(
        &rt,
        || -> Seat<Page>
            requires { IsOf shared.now first × IsFree first }
            ensures { IsOf shared.entry.now result × IsFree result × (seat_spare result ≡ seat_spare first) }
        { write_all(&rt, shared, first, 1, 0, 100) },
        || -> (Seat<Page>, u64)
            requires { IsOf shared.now onlooker × IsFree onlooker }
            ensures { IsOf shared.entry.now result.0 × IsFree result.0 × (seat_spare result.0 ≡ seat_spare onlooker) }
        { look(shared, onlooker) },
    );
    assert!(rt; found <= 200 && onlooker.seen() == found && lock.count(&mut onlooker) == 200);
    lock.join(&mut onlooker, seat);
    let page = lock.close(onlooker);
    assert!(rt; page.lines().len() == 200 && stand_in_order(&page, &mut [0; 2], 100));
    Ok(())
}

#[test]
fn eight_threads_split_and_join(rt: HostRuntime) -> Result<(), Fail> {
    let Ok((lock, seat)) = TurnLock::make(rt.alloc(), Page::new(rt.alloc(), 7), 16) else {
        panic!(rt; "memory")
    };
    let mut seat = write_all(&rt, &lock, seat, 3, 0, 1000);
    assert!(rt; seat.spare() == 15 && shut(&rt, &lock, &mut seat) == 8000);
    let page = lock.close(seat);
    assert!(rt; page.lines().len() == 8000 && stand_in_order(&page, &mut [0; 8], 1000));
    Ok(())
}

/// Where `make` is refused memory, the value comes back as it was. It is refused none but where an allocation is made to fail.
#[test]
fn a_refused_value_comes_back(rt: HostRuntime) -> Result<(), Fail> {
    let mut page = Page::new(rt.alloc(), 7);
    let written = page.write(5);
    let page = match TurnLock::make(rt.alloc(), page, 1) {
        Ok((lock, seat)) => lock.close(seat),
        Err((page, _)) => page,
    };
    let lines: &[u64] = if written { &[5] } else { &[] };
    assert_eq!(rt; page.lines(), lines);
    Ok(())
}
