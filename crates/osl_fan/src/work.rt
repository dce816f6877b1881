use std::sync::Wait;
use std::thread::Threads;

/// A member of a fan: a worker or an editor, which keeps what it has found out.
pub trait Work {
    /// What must hold of a member that is set to work.
    ghost can_work: { Self → Type 0 } = { λ _. Unit {0} };

    /// How the member before its work and the member after it are related.
    ghost work_gives: { Self → Self → Type 0 };

    /// Does all the member's work. It may start threads and wait for others.
    fn work<R: Threads + Wait + Sync>(&mut self, rt: &R)
        requires { can_work self.old }
        ensures { work_gives self.old self.new };
}
