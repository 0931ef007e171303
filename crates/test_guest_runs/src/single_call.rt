//! A single call at the edges of its arguments, and what it must give.
use crate::guest_run::GuestRun;
use crate::output::Output;
use data_guest_programs::{ECALL, EXIT, file_of, load};
use std::alloc::{AllocError, Global};
use test_guest_rows::{small, split, word};

/// What one call gives: a program loads x10, x11 and the call's number, makes the call and exits with the code. No other call
/// was made before, and there is no input.
#[derive(Clone, Copy)]
pub struct SingleCall<'a> {
    /// The number of the call.
    number: u32,
    /// Its name in a trace.
    name: &'a str,
    /// x10 and x11.
    arguments: [u32; 2],
    /// The code that it gives.
    code: u32,
    /// The value that it gives, where it gives one.
    value: Option<u32>,
}

impl<'a> SingleCall<'a> {
    /// The call of a line: number, name, x10, x11, an arrow, the code, and the value where there is one.
    pub fn of_line(line: &'a str) -> Self {
        let (number, rest) = split(line);
        let (name, rest) = split(rest);
        let (first, rest) = split(rest);
        let (second, rest) = split(rest);
        let (_, rest) = split(rest);
        let (code, value) = split(rest);
        SingleCall {
            number: small(number),
            name,
            arguments: [word(first), word(second)],
            code: word(code),
            value: if value.is_empty() {
                None
            } else {
                Some(word(value))
            },
        }
    }

    /// The bytes of the program's file.
    pub fn file(&self, alloc: Global) -> Result<Vec<u8>, AllocError> {
        let [first, second] = self.arguments;
        let mut words = Vec::new(alloc);
        for loaded in [load(10, first), load(11, second), load(17, self.number)] {
            words.extend_from_slice(&loaded)?;
        }
        words.push(ECALL)?;
        words.extend_from_slice(&EXIT)?;
        file_of(alloc, &words)
    }

    /// What its run must give.
    pub fn run(&self, alloc: Global) -> Result<GuestRun, AllocError> {
        let asked = self.asked(alloc)?;
        let name = format!(in alloc; "call {asked}")?;
        let mut run = GuestRun::new(alloc, name.as_str())?;
        run.ending = format!(in alloc; "exit {}", self.code)?;
        run.output = Output::Zeros(self.written());
        run.trace = self.trace(alloc, asked.as_str())?;
        Ok(run)
    }

    /// Its name and its arguments.
    fn asked(&self, alloc: Global) -> Result<String, AllocError> {
        let [first, second] = self.arguments;
        format!(in alloc; "{} {first:08x} {second:08x}", self.name)
    }

    /// How many zeros it writes.
    fn written(&self) -> usize {
        match self.value {
            Some(count) if self.name == "write" => count as usize,
            _ => 0,
        }
    }

    /// The trace of its run, if this is its name with its arguments.
    fn trace(&self, alloc: Global, asked: &str) -> Result<String, AllocError> {
        let code = self.code;
        let left = self.value.unwrap_or(self.arguments[1]);
        let value = match self.value {
            Some(value) => format!(in alloc; " {value:08x}")?,
            None => String::new(alloc),
        };
        format!(in alloc;
            "1 0 {asked} 00000000 -> {code}{value} changed=0 ran=7\n\
             2 0 exit {code:08x} {left:08x} 00000000 -> end changed=0 ran=2\n"
        )
    }
}
