// Plans the request on standard input and prints the plan, or the number of its refusal. All that is printed comes from the proved library.
//
// What prints gives the error of a write that failed, and prints nothing after it.
#![tactic(auto)]

ghost use Rattle.std.specs.Prelude.{◌*◌, ◌≤◌, length, IfOk};
ghost use Rattle.schedule.specs.Quantities.{Valid};

use base::{JobNumber, Reason};
use schedule::Recorder;
use std::io::{self, Read, Stdin, Stdout, Write};

const BUDGET: u32 = 1000000;

// One line: a word and a number.
fn figure_line(out: &mut Stdout, word: &str, figure: u32) -> io::Result<()> {
    writeln!(out, "{word} {figure}")
}

fn refused_line(out: &mut Stdout, reason: Reason) -> io::Result<()> {
    figure_line(out, "refused", u32::from(reason.number()))
}

fn job_line(out: &mut Stdout, job: JobNumber, start: u16, margin: i32) -> io::Result<()> {
    let number = job.0;
    writeln!(out, "job {number} start {start} margin {margin}")
}

fn device_line(out: &mut Stdout, device: usize, row: &[u8]) -> io::Result<()> {
    write!(out, "device {device} ")?;
    out.write_all(row)?;
    out.write_all(b"\n")
}

// A line for each job, in job order.
fn job_lines(out: &mut Stdout, starts: &[u16], margins: &[i32]) -> io::Result<()>
    requires { length starts.now ≤ length margins.now }
{
    for j in 0..starts.len() {
        job_line(out, JobNumber(j), starts[j], margins[j])?;
    }
    Ok(())
}

// A line for each device: its row, of the rows of h letters that stand one after the other.
fn device_lines(out: &mut Stdout, rows: &[u8], h: usize, count: usize) -> io::Result<()>
    requires { count * h ≤ length rows.now }
{
    let mut at = 0;
    for k in 0..count {
        let end = at + h;
        device_line(out, k, &rows[at..end])?;
        at = end;
    }
    Ok(())
}

// The lines of the jobs and of the devices, for the starts that were found: neither is refused.
fn plan_lines(out: &mut Stdout, r: Recorder, starts: &[u16]) -> io::Result<()>
    requires { Valid r × (length starts.now ≤ 16) }
{
    let mut margins = [0i32; 16];
    let _ = planner::margins_of(r, starts, &mut margins);
    let mut rows = [0u8; 32768];
    let _ = planner::rows_of(r, starts, &mut rows);
    job_lines(out, starts, &margins)?;
    device_lines(out, &rows, r.horizon as usize, r.devices.count)
}

// The plan of a recorder, or its refusal.
fn print_plan(out: &mut Stdout, r: Recorder) -> io::Result<()>
    requires { Valid r }
{
    let mut starts = [0u16; 16];
    match planner::search_of(r, BUDGET, &mut starts) {
        Ok(found) => {
            figure_line(out, "energy", found.energy)?;
            figure_line(out, "vertices", found.count)?;
            plan_lines(out, r, &starts[..r.jobs.count])
        }
        Err(refusal) => refused_line(out, refusal.reason),
    }
}

// The same of a file, which is read once.
fn print_answer(out: &mut Stdout, file: &[u8]) -> io::Result<()> {
    match request::read(file) {
        Ok(recorder) => print_plan(out, recorder),
        Err(reason) => refused_line(out, reason),
    }
}

// Reads until the buffer is full, the input ends or a read fails, and gives how many bytes have come. A read may bring less than there is room for, and more may
// still follow.
fn read_input(input: &mut Stdin, buffer: &mut [u8]) -> io::Result<usize>
    ensures { IfOk result (λ n. n ≤ length buffer.new) }
{
    let mut read = 0;
    while read < buffer.len() {
        let more = input.read(&mut buffer[read..])?;
        if more == 0 {
            return Ok(read);
        }
        read += more;
    }
    Ok(read)
}

// The longest file that is accepted has 231 bytes, and a longer one is refused as its first 232 bytes are (request/proofs/Beyond).
fn main(rt: HostRuntime) -> io::Result<()> {
    let mut file = [0u8; 232];
    let Ok(read) = read_input(&mut rt.stdin(), &mut file) else {
        return eprintln!(rt; "plan: cannot read standard input");
    };
    match print_answer(&mut rt.stdout(), &file[..read]) {
        Ok(()) => Ok(()),
        Err(_) => eprintln!(rt; "plan: cannot write to standard output"),
    }
}
