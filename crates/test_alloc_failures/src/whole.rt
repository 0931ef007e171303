//! Files that are read, and whole runs.
use crate::answer::{Answer, digest_of, mixed};
use crate::failed::Failed;
use crate::picture::Picture;
use crate::programs::image_of;
use crate::retry::again;
use crate::runs::BOUND;
use crate::taker::Taker;
use data_guest_programs::Program;
use elf32_reader::Image;
use runtime::{Config, OpenGate, Report, RunOutcome, run, run_into};
use std::alloc::Global;
use std::sync::Wait;
use std::thread::Threads;
use tracer::trace_text;

/// As many instructions as any of the programs wants, no quantum, and one worker, so that each run makes the
/// same requests.
const CONFIG: Config = Config {
    bound: BOUND,
    quantum: None,
    shuffle: None,
    workers: 1,
};

/// The image that a file is read as.
pub fn read_file(alloc: Global, program: &Program) -> Result<Answer, Failed> {
    let image = image_of(alloc, program)?;
    Ok(Answer {
        count: image.segments().len() as u64,
        value: image.entry(),
        digest: digest_of_segments(&image),
    })
}

/// A digest of an image's segments.
fn digest_of_segments(image: &Image) -> u64 {
    let mut digest = digest_of(&[]);
    for segment in image.segments() {
        let bytes = mixed(u64::from(segment.vaddr()), digest_of(segment.bytes()));
        digest = mixed(digest, mixed(bytes, u64::from(segment.memsz())));
    }
    digest
}

/// A run without input.
pub fn run_whole<R: Threads + Wait + Sync>(
    rt: &R,
    alloc: Global,
    program: &Program,
) -> Result<Answer, Failed> {
    let file = program.file(alloc)?;
    let report = report_of(rt, alloc, &file)?;
    answer_of(alloc, &report)
}

/// The report of a run of a file without input.
fn report_of<R: Threads + Wait + Sync>(
    rt: &R,
    alloc: Global,
    file: &[u8],
) -> Result<Report, Failed> {
    again!(run(rt, alloc, file, b"", &CONFIG, &OpenGate))
}

/// A run whose output goes to a sink. Where it is refused, the sink has taken a prefix of what another takes when the run
/// is made again.
pub fn run_to_sink<R: Threads + Wait + Sync>(
    rt: &R,
    alloc: Global,
    program: &Program,
    input: &[u8],
) -> Result<Answer, Failed> {
    let file = program.file(alloc)?;
    run_file_to_sink(rt, alloc, &file, input)
}

/// A run of a file whose output goes to a sink.
fn run_file_to_sink<R: Threads + Wait + Sync>(
    rt: &R,
    alloc: Global,
    file: &[u8],
    input: &[u8],
) -> Result<Answer, Failed> {
    let mut first = Taker::new();
    let mut second = Taker::new();
    let report = report_to(rt, alloc, file, input, &mut first, &mut second)?;
    if have_taken(&first, &second, &report.output) {
        answer_of(alloc, &report)
    } else {
        Err(Failed::Changed)
    }
}

/// Whether the second sink has taken the output, and the first a prefix of it.
fn have_taken(first: &Taker, second: &Taker, output: &[u8]) -> bool {
    second.kept().starts_with(first.kept()) && second.kept() == output
}

/// The report of a run of a file whose output goes to a sink, and of a second run where the first is refused. The second sink
/// is left as it is after the run that wasn't refused.
fn report_to<R: Threads + Wait + Sync>(
    rt: &R,
    alloc: Global,
    file: &[u8],
    input: &[u8],
    first: &mut Taker,
    second: &mut Taker,
) -> Result<Report, Failed> {
    if let Ok(report) = run_into(rt, alloc, file, input, &CONFIG, &OpenGate, first) {
        *second = *first;
        return Ok(report);
    }
    match run_into(rt, alloc, file, input, &CONFIG, &OpenGate, second) {
        Ok(report) => Ok(report),
        Err(_) => Err(Failed::Twice),
    }
}

/// What a run came to.
fn answer_of(alloc: Global, report: &Report) -> Result<Answer, Failed> {
    let RunOutcome::Exit(status) = report.outcome else {
        return Err(Failed::Other);
    };
    let written = digest_of_written(alloc, report)?;
    Ok(Answer {
        count: report.trace.len() as u64,
        value: status,
        digest: digest_of_rows(written, report),
    })
}

/// A digest of a run's last memory, its output and its trace.
fn digest_of_written(alloc: Global, report: &Report) -> Result<u64, Failed> {
    let memory = Picture::of(alloc, &report.memory)?.digest();
    let trace = trace_text(alloc, &report.trace)?;
    let output = digest_of(&report.output);
    Ok(mixed(mixed(memory, output), digest_of(trace.as_bytes())))
}

/// A digest that goes on with how a run's pages were shared.
fn digest_of_rows(digest: u64, report: &Report) -> u64 {
    let mut digest = digest;
    for row in report.sharing.as_slice() {
        let counts = mixed(mixed(row.turns, row.bytes), mixed(row.threads, row.shared));
        let page = mixed(u64::from(row.page), row.clashes);
        digest = mixed(digest, mixed(page, counts));
    }
    digest
}
