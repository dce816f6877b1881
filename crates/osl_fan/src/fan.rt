ghost use Rattle.std.specs.Prelude.{All};
ghost use Rattle.std.specs.List.{AllZip};

use crate::work::Work;
use std::sync::Wait;
use std::thread;
use std::thread::Threads;

/// Calls the `work` of each worker and each editor once, and returns when all have ended.
///
/// Each member has a thread of its own. Where no thread can be made the calls run one after another, so nothing can be
/// refused.
pub fn fan_out<R: Threads + Wait + Sync, W: Work + Send, E: Work + Send>(
    rt: &R,
    workers: &mut [W],
    editors: &mut [E],
)
    requires workers { All W.can_work workers.old }
    requires editors { All E.can_work editors.old }
    ensures workers { AllZip W.work_gives workers.old workers.new }
    ensures editors { AllZip E.work_gives editors.old editors.new }
{
    thread::join_mut(
        rt,
        &mut ||
            requires { All W.can_work workers.now }
        { set_to_work(rt, workers) },
        &mut ||
            requires { All E.can_work editors.now }
        { set_to_work(rt, editors) },
    );
}

/// Calls the `work` of each member once, in as many threads as there are members.
fn set_to_work<R: Threads + Wait + Sync, W: Work + Send>(rt: &R, members: &mut [W])
    requires { All W.can_work members.old }
    ensures { AllZip W.work_gives members.old members.new }
{
    let threads = members.len();
    if threads > 0 {
        let work = |_place: usize, member: &mut W|
            requires { W.can_work member.now }
            ensures { W.work_gives member.entry.now member.exit.now }
        { member.work(rt) };
        thread::for_each_mut(rt, members, threads, &work);
    }
}
