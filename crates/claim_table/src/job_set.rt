//! A set of job numbers in a fixed array. Takes memory only when it is listed.
ghost use Rattle.std.specs.Prelude.{◌≡◌, ◌<◌, true, false, replicate, slice_set, IfOk, OnOk, ◌++◌, ◌∷◌, [], if◌then◌else◌};
ghost use Rattle.claim_table.specs.Seat.{members};

use std::alloc::{AllocError, Global};

/// How many jobs there are at most.
pub const JOBS: usize = 256;

/// A set of job numbers.
#[derive(Clone, Copy)]
pub struct JobSet {
    marks: [bool; JOBS],
}

/// Puts a number after others, if it is to.
fn push_if(numbers: &mut Vec<u32>, number: u32, is: bool) -> Result<(), AllocError>
    ensures { OnOk result (numbers.new.items ≡ numbers.old.items ++ (if is then number ∷ [] else [])) }
{
    if is {
        numbers.push(number)?;
    }
    Ok(())
}

impl JobSet {
    pub fn new() -> Self
        ensures { result.marks ≡ replicate JOBS false }
    {
        JobSet {
            marks: [false; JOBS],
        }
    }

    /// Puts a number in.
    pub fn mark(&mut self, number: u32)
        requires { number < JOBS }
        ensures { self.new.marks ≡ slice_set self.old.marks number true }
    {
        self.marks[number as usize] = true;
    }

    /// The numbers, ascending.
    #[tactic(auto, using(crate::proofs::Lists::members_more, crate::proofs::Lists::members_none))]
    pub fn numbers(&self, alloc: Global) -> Result<Vec<u32>, AllocError>
        ensures { IfOk result (λ numbers. numbers.items ≡ members JOBS self.now.marks) }
    {
        let mut numbers = Vec::new(alloc);
        for number in 0..JOBS {
            push_if(&mut numbers, number as u32, self.marks[number])?;
        }
        Ok(numbers)
    }
}
