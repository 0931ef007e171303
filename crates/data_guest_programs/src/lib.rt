//! Guest programs that proved tests name, as listings, the writer of guest files, and written schedules. The listings were assembled
//! by hand from the RISC-V Unprivileged ISA, document version 20191213. What whole runs of these and of further programs must give
//! stands in the data of `test_guest_runs`; `tools/dt test rows` compares its listings with these.
#![tactic(auto)]

mod elf_file;
mod instructions;
mod one_thread;
mod program;
pub mod schedules;
mod shared_bytes;
mod threads;

pub use elf_file::{CODE, DATA, ProgramHeader, file_of, file_of_headers, file_with_zeros};
pub use instructions::{ECALL, EXIT, load, operands};
pub use one_thread::{BAD_WRITE, ECHO, LETTER, QUOTIENTS, SEVEN, TWO_WRITES};
pub use program::{Program, words_of};
pub use shared_bytes::{COUNTER, LATE_TRAP, LATE_WORK, RACE, RACE_TRACE};
pub use threads::{ENDLESS, KEEPER_EXIT, KEEPER_EXIT_TRACE, RELEASE_RACE, SIGNAL};

/// The programs.
pub static KEPT: [Program; 14] = [
    SEVEN,
    LETTER,
    QUOTIENTS,
    ECHO,
    BAD_WRITE,
    TWO_WRITES,
    RACE,
    COUNTER,
    LATE_TRAP,
    LATE_WORK,
    ENDLESS,
    KEEPER_EXIT,
    RELEASE_RACE,
    SIGNAL,
];

/// The names of programs, each with the trace of its run.
pub static KEPT_TRACES: [(&str, &str); 2] = [
    ("race", RACE_TRACE),
    ("keeper-exit", KEEPER_EXIT_TRACE),
];
