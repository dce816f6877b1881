//! What holds of every job that words ask for.

ghost use Rattle.std.specs.Prelude.{◌≡◌, ◌≤◌, ℕ, List, Some, codes};
ghost use Rattle.osl_words.specs.Words.{job_of, is_among, later};
ghost use Rattle.osl_words.specs.declared.job.Job.TheVariants as jobs;
ghost use Rattle.osl_words.specs.declared.job.ShadeJob.{ShadeJob};

/// A job is serial exactly where `--serial` is among the words after the command's name.
pub fn serial_is_a_word()
    ensures { (words : List (List ℕ)) (job : ShadeJob) → job_of words ≡ Some (jobs.Shade job)
        → job.serial ≡ is_among (codes "--serial") (later words) }
{}

/// The numbers of a job are in their ranges.
pub fn numbers_in_range()
    ensures workers { (words : List (List ℕ)) (job : ShadeJob) → job_of words ≡ Some (jobs.Shade job)
        → (1 ≤ job.workers) × (job.workers ≤ 16) }
    ensures budget { (words : List (List ℕ)) (job : ShadeJob) → job_of words ≡ Some (jobs.Shade job)
        → (1 ≤ job.budget) × (job.budget ≤ 1000000) }
    ensures demo { (words : List (List ℕ)) (n : ℕ) → job_of words ≡ Some (jobs.Demo n) → (1 ≤ n) × (n ≤ 256) }
    ensures demo_text { (words : List (List ℕ)) (n : ℕ) → job_of words ≡ Some (jobs.DemoText n) → (1 ≤ n) × (n ≤ 256) }
{}
