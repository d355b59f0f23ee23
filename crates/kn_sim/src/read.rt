//! A workload, read line by line.
ghost use Rattle.std.specs.Prelude.{◌≡◌, ◌⊎◌, ◌+◌, ◌≤◌, ◌<◌, ◌^◌, length, IfErr, IfOk, Err};
ghost use Rattle.kn_io.specs.Causes.{Rose};
ghost use Rattle.kn_agenda.specs.Workload.{AreJobs};
ghost use Rattle.kn_event.specs.Revision.{AreInRange};
ghost use Rattle.kn_journal.specs.Drawing.{error_in};
ghost use Rattle.kn_journal.specs.Journal.{IsSetup, time_most};
ghost use Rattle.kn_journal.specs.Reading.{most_taken};
ghost use Rattle.kn_journal.specs.Telling.{IsCauseOf, Judges};
ghost use Rattle.kn_journal.specs.LineCalls.{DrawsLines, Reads};
ghost use Rattle.kn_sim.specs.Reading.{OnJob, TellsWorkload, boot_most, in_turn, job_of, jobs_most};
ghost use Rattle.kn_sim.specs.Reading.{course_part, jobs_part, named_line_in, named_part, next_job_part, service_most};
ghost use Rattle.kn_sim.specs.Reading.{until_most, workload_part};
ghost use Rattle.kn_sim.specs.Simulated.{IsWorkload};

use crate::line::{job_of, named_of};
use crate::workload::{Jobs, Workload};
use kn_agenda::Job;
use kn_event::{Memory, Spec};
use kn_io::Source;
use kn_journal::{FirstLine, JournalError, Lines, Opening, Setup, TIME_MOST, read_opening};
use std::alloc::Global;

/// How many jobs a workload may have.
const JOBS_MOST: usize = 100_000;

/// How long a pod may take to become ready, in milliseconds.
const BOOT_MOST: u64 = 600_000;

/// How long after its start a workload may end, in milliseconds.
const DAY: u64 = 86_400_000;

/// The number of the line `WORD N` of this number, from the least to the most.
fn judge_named(
    line: &[u8],
    number: u64,
    word: &[u8],
    least: u64,
    most: u64,
) -> Result<u64, JournalError>
    ensures judges { Judges (named_line_in word.now least most) number line.now result }
    ensures least { IfOk result (λ n. least ≤ n) }
    ensures most { IfOk result (λ n. n ≤ most) }
{
    match named_of(line, word, least, most) {
        Ok(n) => Ok(n),
        Err(why) => Err(JournalError::BadLine(number, why)),
    }
}

/// The job of the line of this number, behind so many others, at the last one's time or later, and not after `until`.
fn judge_job(
    line: &[u8],
    number: u64,
    until: u64,
    last: u64,
    count: usize,
) -> Result<Job, JournalError>
    ensures ok { IfOk result (λ j. in_turn until last count number (job_of line.now) ≡ Ok j) }
    ensures err { IfErr result (λ e. IsCauseOf e (in_turn until last count number (job_of line.now))) }
    ensures order { IfOk result (λ j. last ≤ j.time) }
    ensures until { IfOk result (λ j. j.time ≤ until) }
    ensures service { IfOk result (λ j. j.service ≤ service_most) }
    ensures few { IfOk result (λ j. count < jobs_most) }
{
    match job_of(line) {
        Ok(job) => if count >= JOBS_MOST {
            Err(JournalError::TooMany(number))
        } else if job.time > until {
            Err(JournalError::TimeTooLarge(number))
        } else if job.time < last {
            Err(JournalError::TimeBack(number, last, job.time))
        } else {
            Ok(job)
        },
        Err(why) => Err(JournalError::BadLine(number, why)),
    }
}

/// Reads the line `WORD N`, N from the least to the most.
fn next_named<S: Source>(
    lines: &mut Lines,
    source: &mut S,
    word: &[u8],
    least: u64,
    most: u64,
) -> Result<u64, JournalError>
    ensures tells { Reads (named_part word.now least most) lines.old lines.new
        (S.left source.old) (S.left source.new) result }
    ensures least { IfOk result (λ n. least ≤ n) }
    ensures most { IfOk result (λ n. n ≤ most) }
    ensures source { DrawsLines (error_in result) lines.old lines.new S.Source.own S.Faulty source.old source.new }
{
    match lines.next_line(source) {
        Ok(()) => judge_named(lines.line(), lines.number(), word, least, most),
        Err(e) => Err(e),
    }
}

/// Reads the next job, or `end` and the end of the input.
fn next_job<S: Source>(
    lines: &mut Lines,
    source: &mut S,
    until: u64,
    last: u64,
    count: usize,
) -> Result<Option<Job>, JournalError>
    ensures tells { Reads (next_job_part until last count) lines.old lines.new
        (S.left source.old) (S.left source.new) result }
    ensures order { OnJob result (λ j. last ≤ j.time) }
    ensures until { OnJob result (λ j. j.time ≤ until) }
    ensures service { OnJob result (λ j. j.service ≤ service_most) }
    ensures few { OnJob result (λ j. count < jobs_most) }
    ensures source { DrawsLines (error_in result) lines.old lines.new S.Source.own S.Faulty source.old source.new }
{
    match lines.next_line(source) {
        Ok(()) => {}
        Err(e) => return Err(e),
    }
    if lines.line() == b"end".as_slice() {
        return match lines.end(source) {
            Ok(()) => Ok(None),
            Err(e) => Err(e),
        };
    }
    match judge_job(lines.line(), lines.number(), until, last, count) {
        Ok(job) => Ok(Some(job)),
        Err(e) => Err(e),
    }
}

/// A number is in range.
fn number_range(n: u64)
    ensures { n < 2 ^ 64 }
{}

/// Reads all jobs, from the start up to `until`, and `end`.
fn read_jobs<S: Source>(
    alloc: Global,
    lines: &mut Lines,
    source: &mut S,
    start: u64,
    until: u64,
) -> Result<Jobs, JournalError>
    ensures tells { Reads (jobs_part until start 0) lines.old lines.new (S.left source.old) (S.left source.new) result }
    ensures jobs { IfOk result (AreJobs start until) }
    ensures few { IfOk result (λ jobs. length jobs ≤ jobs_most) }
    ensures source { DrawsLines (error_in result) lines.old lines.new S.Source.own S.Faulty source.old source.new }
{
    let mut jobs = Vec::new(alloc);
    let mut last = start;
    'each: loop {
        match next_job(lines, source, until, last, jobs.len()) {
            Ok(Some(job)) => {
                number_range(job.tag);
                last = job.time;
                if jobs.push(job).is_err() {
                    return Err(JournalError::Memory);
                }
            }
            Ok(None) => return Ok(Jobs::new(jobs)),
            Err(e) => return Err(e),
        }
    }
}

/// The last time that a workload of this start may end at.
fn until_most(start: u64) -> u64
    requires { start ≤ time_most }
    ensures { result ≡ until_most start }
{
    TIME_MOST.min(start + DAY)
}

/// A specification is in range.
fn spec_ranges(spec: &Spec)
    ensures { AreInRange spec.now }
{
    // Any part that is read brings what is kept of all.
    let _timeout = spec.timeout_ms;
}

/// Reads a workload whose setup, start and boot time were read.
fn read_course<S: Source>(
    alloc: Global,
    lines: &mut Lines,
    source: &mut S,
    setup: Setup,
    start: u64,
    boot: u64,
) -> Result<Workload, JournalError>
    requires setup { IsSetup setup }
    requires start { start ≤ time_most }
    requires boot { boot ≤ boot_most }
    ensures tells { Reads (course_part setup start boot) lines.old lines.new
        (S.left source.old) (S.left source.new) result }
    ensures good { IfOk result IsWorkload }
    ensures source { DrawsLines (error_in result) lines.old lines.new S.Source.own S.Faulty source.old source.new }
{
    spec_ranges(&setup.spec);
    let until = next_named(lines, source, b"until", start, until_most(start))?;
    match read_jobs(alloc, lines, source, start, until) {
        Ok(jobs) => Ok(Workload {
            setup,
            start,
            boot,
            until,
            jobs,
        }),
        Err(e) => Err(e),
    }
}

/// Reads a workload from lines of which none was read.
fn read_lines<S: Source>(
    alloc: Global,
    lines: &mut Lines,
    source: &mut S,
) -> Result<Workload, JournalError>
    ensures tells { Reads workload_part lines.old lines.new (S.left source.old) (S.left source.new) result }
    ensures good { IfOk result IsWorkload }
    ensures source { DrawsLines (error_in result) lines.old lines.new S.Source.own S.Faulty source.old source.new }
{
    let opening = read_opening(alloc, lines, source, FirstLine::Workload)?;
    let start = lines.start(source)?;
    let boot = next_named(lines, source, b"boot", 0, BOOT_MOST)?;
    let Opening { version: _, setup } = opening;
    read_course(alloc, lines, source, setup, start, boot)
}

/// Reads a workload to the end of the input, or why it is refused: the first line that is, from the first on. On a job's
/// line that is first its form, then that it is one too many, then that it comes after the end, and then that it is before
/// the last one.
pub fn read_workload<S: Source>(alloc: Global, source: &mut S) -> Result<Workload, JournalError>
    ensures tells { TellsWorkload (S.left source.old) result }
    ensures good { IfOk result IsWorkload }
    ensures fault { result ≡ Err JournalError.ReadFault → Rose (S.Faulty.faults source.old) (S.Faulty.faults source.new)
        ⊎ (S.given source.old + most_taken ≤ S.given source.new) }
    ensures never_falls { S.Faulty.faults source.old ≤ S.Faulty.faults source.new }
    ensures apart { S.apart source.new ≡ S.apart source.old }
{
    let mut lines = match Lines::new(alloc) {
        Ok(lines) => lines,
        Err(Memory) => return Err(JournalError::Memory),
    };
    read_lines(alloc, &mut lines, source)
}
