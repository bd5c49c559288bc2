// Joins of contents, in slices.
ghost use Rattle.std.specs.Prelude.{◌≡◌, ◌+◌, ◌<◌, ◌∷◌, ℕ, [], length, nat_le, IfOk, OnOk, OnErr, IsTrue};
ghost use Rattle.alta_content.specs.Parts.{MayJoin};
ghost use Rattle.alta_content.specs.declared.content.Content.{Content};
ghost use Rattle.alta_meaning.specs.Work as work;
ghost use Rattle.alta_meaning.specs.Work.{whole_of};
ghost use Rattle.alta_joins.specs.Jobs.{IsMerging, begun_job, moved_by};
ghost use Rattle.alta_content.specs.Joining.{joined_in, terms_in};

use alta_codec::Loc;
use alta_content::Content;
use alta_merge::Job;
use std::alloc::{AllocError, Global};

/// Begins the join of contents, each before the next, without the documents whose end is dead: of two levels it is the job of a
/// store. The dead ends may stand in any order, and may be ends of no document. It takes a few allocations, whatever the number of
/// terms.
pub fn begin_job(alloc: Global, contents: Vec<Content>, dead: &[Loc]) -> Result<Job, AllocError>
    requires { MayJoin contents.items }
    ensures whole { IfOk result (λ job. job.whole ≡ joined_in contents.items dead.now) }
    ensures merging { (older newer : Content) → contents.items ≡ older ∷ newer ∷ []
        → IfOk result (λ job. IsMerging job (begun_job older newer dead.now)) }
{
    Job::over(alloc, contents, dead)
}

/// Moves a join on by `n` terms, or by all that are left, and answers whether none is left then. Where memory is wanting, it has
/// moved on by the terms before the one that wanted it, and goes on from there.
pub fn step_job(job: &mut Job, n: u64) -> Result<bool, AllocError>
    ensures whole { job.new.whole ≡ job.old.whole }
    ensures moved { (j : work.Job) → IsMerging job.old j → OnOk result (IsMerging job.new (moved_by j n)) }
    ensures done { (j : work.Job) → IsMerging job.old j
        → IfOk result (λ done. done ≡ nat_le (length (terms_in (j.older ∷ j.newer ∷ []))) (j.merged + n)) }
    ensures ended { IfOk result (λ done. IsTrue done → job.new.left ≡ []) }
    ensures wanting { (j : work.Job) → IsMerging job.old j
        → OnErr result ((k : ℕ) × (k < n) × (j.merged + k < length (terms_in (j.older ∷ j.newer ∷ [])))
        × IsMerging job.new (moved_by j k)) }
{
    job.step(n)
}

/// Moves a join on to its end. Where memory is wanting, it has moved on by the terms before the one that wanted it.
pub fn run_job(job: &mut Job) -> Result<(), AllocError>
    ensures whole { job.new.whole ≡ job.old.whole }
    ensures ended { OnOk result (job.new.left ≡ []) }
    ensures wanting { (j : work.Job) → IsMerging job.old j
        → OnErr result ((k : ℕ) × (j.merged + k < length (terms_in (j.older ∷ j.newer ∷ [])))
        × IsMerging job.new (moved_by j k)) }
{
    loop {
        let done = job.step(u64::MAX)?;
        if done {
            return Ok(());
        }
    }
}

/// The content that a join comes to, without a copy. It has neither rows nor terms where no row is left.
pub fn finish_job(job: Job) -> Content
    requires { job.left ≡ [] }
    ensures whole { result ≡ job.whole }
    ensures content { (j : work.Job) → IsMerging job j → result ≡ whole_of j }
{
    job.finish()
}
