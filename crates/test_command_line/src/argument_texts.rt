//! Arguments that are text, and arguments that are not.

use command_line::{Failure, arguments_of};
use std::env::FillError;
use std::rt::Env;
use std::test::Fail;

/// The arguments of a command line, and no environment.
#[derive(Clone, Copy)]
struct Arguments<'a>(&'a [&'a [u8]]);

impl Env for Arguments<'_> {
    fn arg(&self, i: usize, buf: &mut [u8]) -> Result<usize, FillError> {
        let argument = self.0.get(i).ok_or(FillError::NotPresent)?;
        if buf.len() < argument.len() {
            return Err(FillError::TooLong);
        }
        buf[..argument.len()].copy_from_slice(argument);
        Ok(argument.len())
    }

    fn var(&self, _name: &str, _buf: &mut [u8]) -> Result<usize, FillError> {
        Err(FillError::NotPresent)
    }

    fn var_at(&self, _i: usize, _buf: &mut [u8]) -> Result<usize, FillError> {
        Err(FillError::NotPresent)
    }
}

#[test]
fn arguments_are_text_or_refused_as_a_whole(rt: HostRuntime) -> Result<(), Fail> {
    let all: [&[u8]; 2] = [b"dthreads", "\u{e9}".as_bytes()];
    let arguments = arguments_of(&(Arguments(&all), rt.alloc()))?;
    assert_eq!(rt; arguments.len(), 2);
    assert!(rt; arguments[0].as_str() == "dthreads");
    assert!(rt; arguments[1].as_str() == "\u{e9}");
    let all: [&[u8]; 3] = [b"dthreads", b"run", b"\xff"];
    let refused = arguments_of(&(Arguments(&all), rt.alloc()));
    assert!(rt; matches!(refused, Err(Failure::NotText)));
    Ok(())
}
