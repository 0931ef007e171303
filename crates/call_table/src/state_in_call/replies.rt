//! The replies to calls that are completed.
ghost use Rattle.std.specs.Prelude.{◌≡◌, None, Some};

use abi::{Code, Reply};

/// The reply to a call that is completed with a code alone.
pub(super) fn answered(code: Code) -> Reply
    ensures { result ≡ Reply.Completed code None }
{
    Reply::Completed { code, value: None }
}

/// The reply to a call that is done and has a value.
pub(super) fn answered_with(value: u32) -> Reply
    ensures { result ≡ Reply.Completed Code.Done (Some value) }
{
    Reply::Completed {
        code: Code::Done,
        value: Some(value),
    }
}
