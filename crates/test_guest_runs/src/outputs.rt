//! Whether outputs are told from others.

use crate::output::Output;
use std::alloc::{AllocError, Global};
use test_guest_rows::Differences;

/// Compares outputs of two bytes with others.
pub fn compare_outputs(alloc: Global, found: &mut Differences) -> Result<(), AllocError> {
    let letters = Output::Bytes(Vec::from_slice(alloc, b"ab")?);
    let zeros = Output::Zeros(2);
    let are_taken = letters.is(b"ab") && zeros.is(&[0, 0]);
    let are_told = !letters.is(b"a") && !zeros.is(&[0, 1]) && !zeros.is(&[0]);
    found.expect(are_taken, "the output", "of two bytes");
    found.expect(are_told, "another output", "than two bytes");
    Ok(())
}
