//! What pages permit, as texts: `rwx`, with `-` in the place of what isn't permitted.

use crate::answer::Answer;
use guest_memory::Perm;

/// The permissions that a text says.
pub fn perm_of(text: &str) -> Perm {
    Perm {
        read: text.contains('r'),
        write: text.contains('w'),
        execute: text.contains('x'),
    }
}

/// Appends permissions to an answer, or `none`.
pub fn write_perm(answer: &mut Answer, perm: Option<Perm>) {
    let Some(perm) = perm else {
        return answer.word("none");
    };
    answer.word(if perm.read { "r" } else { "-" });
    answer.push(if perm.write { "w" } else { "-" });
    answer.push(if perm.execute { "x" } else { "-" });
}
