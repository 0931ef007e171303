//! A run of a program, and what it must give with any number of workers.
use crate::output::Output;
use std::alloc::{AllocError, Global};

/// A run of a program, and what it must give with any number of workers.
#[derive(Drop)]
pub struct GuestRun {
    /// The program's name, and how this run differs where the program has several.
    pub name: String,
    /// Whether `samples/` has this run's trace and report, under the program's name.
    pub is_sample: bool,
    /// Whether it takes long, and is made once where little effort is asked for.
    pub is_long: bool,
    pub input: Vec<u8>,
    /// How many instructions each thread may execute, or as many as there may be.
    pub bound: Option<u64>,
    /// How many instructions a thread executes at most between two synchronisations.
    pub quantum: Option<u64>,
    /// How it ends: `exit` or `finished` with a number, the line of a trap, or `deadlock`.
    pub ending: String,
    pub output: Output,
    pub trace: String,
    /// The report on shared pages.
    pub report: String,
    /// The addresses of the bytes that each turn changed, turn by turn.
    pub changed: Vec<u32>,
    /// Bytes of the memory at the end, or none where nothing is mapped.
    pub memory: Vec<(u32, Option<u8>)>,
}

impl GuestRun {
    /// A run of this name without an input, a bound or a quantum that changes and writes nothing.
    pub fn new(alloc: Global, name: &str) -> Result<Self, AllocError> {
        Ok(GuestRun {
            name: String::from_str(alloc, name)?,
            is_sample: false,
            is_long: false,
            input: Vec::new(alloc),
            bound: None,
            quantum: None,
            ending: String::new(alloc),
            output: Output::Bytes(Vec::new(alloc)),
            trace: String::new(alloc),
            report: String::new(alloc),
            changed: Vec::new(alloc),
            memory: Vec::new(alloc),
        })
    }
}
