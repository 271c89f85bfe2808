// The next job of a round: the jobs are scanned in a ring.
#![tactic(auto)]

ghost use Rattle.std.specs.Prelude.{◌≡◌, ◌<◌, ◌≤◌, length};
ghost use Rattle.rotation.specs.Round.{first_place, scan};
ghost use Rattle.rotation.specs.Scans.{is_pending};

// A job as the scan looks at it: the offset past its next step in the book, 0 where no step is left: two bytes, 64 of which are copied at once.
#[derive(Clone, Copy)]
pub struct Pending {
    pub past: u16,
}

// Where a scan of so many jobs begins, behind the job that was stepped last.
#[tactic(auto, unfolding(crate::specs::Round::first_place))]
pub fn first_place(from: usize, count: usize) -> usize
    ensures { result ≡ first_place from count }
{
    if from < count { from } else { 0 }
}

// The first job from a place on that has a step left, of so many jobs in a ring: those ahead, and then those behind the place.
pub fn next_job(jobs: &[Pending], from: usize, count: usize) -> Option<usize>
    requires { (from < count) × (count ≤ length jobs.now) }
    ensures { result ≡ scan (is_pending jobs.now) count count from }
{
    for at in from..count {
        if 0 < jobs[at].past {
            return Some(at);
        }
    }
    for at in 0..from {
        if 0 < jobs[at].past {
            return Some(at);
        }
    }
    None
}

// The same of jobs that are passed by value: whoever calls it lends no struct.
pub fn next_of(jobs: [Pending; 64], from: usize, count: usize) -> Option<usize>
    requires { (from < count) × (count ≤ 64) }
    ensures { result ≡ scan (is_pending jobs) count count from }
{
    next_job(&jobs, from, count)
}
