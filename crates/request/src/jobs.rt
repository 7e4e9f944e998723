// The jobs in an array, as the file lists them or as its tasks release them. An array holds as many as fit; its count stays at 17 for all above 16.
ghost use Rattle.std.specs.Prelude.{◌≡◌, [], ℕ, ◌+◌, ◌*◌, ◌≤◌, ◌<◌, length, set};
ghost use Rattle.base.specs.Bytes.{byte_at, pair_at};
ghost use Rattle.tables.specs.Records.{task_at};
ghost use Rattle.request.specs.Format.{horizon_of, job_of, unfolded, listed, jobs_of};
ghost use Rattle.request.specs.inside.Held.{SoundTasks, packed, pushed, released_to};

use super::records;
use base::{JobNumber, TaskNumber};
use schedule::{Job, Jobs};
use tables::TaskRecord;

pub(crate) fn no_jobs() -> Jobs
    ensures { result ≡ packed [] }
{
    let none = Job {
        release: 0,
        deadline: 0,
        run: 0,
        uses: [false; 8],
    };
    Jobs {
        count: 0,
        list: [none; 16],
    }
}

// The last of the jobs is placed at its number.
fn place(js: &mut Jobs, number: JobNumber, j: Job)
    requires { number.0 < 16 }
    ensures { js.new ≡ record { count = number.0 + 1; list = set js.old.list number.0 j } }
{
    let i = number.0;
    js.list[i] = j;
    js.count = i + 1;
}

// One job more: its number is the next. The jobs are lent, since a struct that goes by value is copied at every call.
fn push(js: &mut Jobs, j: Job)
    ensures { js.new ≡ pushed js.old j }
{
    if js.count < 16 {
        let number = JobNumber(js.count);
        place(js, number, j);
    } else {
        js.count = 17;
    }
}

// The job that a task releases at t: due one period later.
fn job_of(k: TaskRecord, t: u32) -> Job
    requires { t + k.period < 65536 }
    ensures { result ≡ job_of k t }
{
    Job {
        release: t as u16,
        deadline: (t + k.period as u32) as u16,
        run: k.run,
        uses: records::set_of(k.set),
    }
}

// To the jobs what a task, of those whose records begin at a place, releases at t.
fn release(s: &[u8], from: usize, task: TaskNumber, t: u32, js: &mut Jobs)
    requires { (from + task.0 * 5 + 4 < length s.now) × (0 < pair_at s.now (from + task.0 * 5)) × (t + pair_at s.now (from + task.0 * 5) < 65536) }
    ensures { js.new ≡ released_to js.old (task_at s.now (from + task.0 * 5)) t }
{
    let k = records::task_of(s, from, task);
    if t % k.period as u32 == 0 {
        push(js, job_of(k, t));
    }
}

// One tick's jobs, by task number, after those of the ticks before.
fn tick(s: &[u8], tasks: usize, from: usize, t: u32, js: &mut Jobs)
    requires { SoundTasks s.now tasks from × (t < 4096) × (js.old ≡ packed (unfolded s.now tasks from t)) }
    ensures { js.new ≡ packed (unfolded s.now tasks from (t + 1)) }
{
    for i in 0..tasks {
        release(s, from, TaskNumber(i), t, js);
    }
}

// The jobs that the tasks release before h, tick by tick: so they come by release, and equal releases by task number.
pub(crate) fn unfold(s: &[u8], tasks: usize, from: usize, h: u32) -> Jobs
    requires { SoundTasks s.now tasks from × (h ≤ 4096) }
    ensures { result ≡ packed (unfolded s.now tasks from h) }
{
    let mut js = no_jobs();
    for t in 0..h {
        tick(s, tasks, from, t, &mut js);
    }
    js
}

// The jobs that the file lists.
fn listed_jobs(s: &[u8], count: usize, from: usize) -> Jobs
    requires { from + count * 7 ≤ length s.now }
    ensures { result ≡ packed (listed s.now count from) }
{
    let mut js = no_jobs();
    for j in 0..count {
        push(&mut js, records::listed_job(s, from, JobNumber(j)));
    }
    js
}

// The jobs of a file, unfolded or given: the job count stands at `at`.
pub(crate) fn jobs_of(s: &[u8], tasks: usize, from: usize, at: usize, h: u32) -> Jobs
    requires { SoundTasks s.now tasks from × (h ≤ 4096) × (h ≡ horizon_of s.now tasks from) × (at + 1 + byte_at s.now at * 7 ≤ length s.now) }
    ensures { result ≡ packed (jobs_of s.now tasks from at) }
{
    if tasks == 0 {
        listed_jobs(s, s[at] as usize, at + 1)
    } else {
        unfold(s, tasks, from, h)
    }
}
