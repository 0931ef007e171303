//! What an operation on an object answers: the reply to the caller, and who is let go.
use abi::Reply;

/// What a call comes to that can let other threads go.
#[derive(Debug, Drop)]
pub struct Answer<T> {
    /// What it comes to for the caller.
    pub reply: Reply,
    /// Who is let go, the first to come first.
    pub let_go: T,
}
