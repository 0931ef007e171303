//! What hints told of the calls of each thread.
ghost use Rattle.std.specs.Prelude.{◌≡◌, vec_len};

use crate::called_hint::CalledHint;
use crate::hint_event::HintEvent;
use crate::hint_kind::HintKind;
use crate::library_call::LibraryCall;
use crate::library_user::LibraryUser;
use crate::observed_event::ObservedEvent;
use std::alloc::{AllocError, Global};

/// What hints told of the calls of each of the 256 threads.
#[derive(Drop)]
pub(crate) struct LibraryUsers {
    users: Vec<LibraryUser>,
    ghost full: { vec_len users ≡ 256 },
}

impl LibraryUsers {
    ghost use Rattle.std.specs.Prelude.{ℕ, [], ◌∷◌, IfOk};
    ghost use Rattle.std.specs.Option.{option_to_list};
    ghost use Rattle.races.specs.LibraryUsers.{user_after, user_in, hints_of, nobody};
    ghost use Rattle.races.specs.declared.observed_event.ObservedEvent.TheVariants.{Hint};

    /// Nothing was told.
    pub(crate) fn new(alloc: Global) -> Result<Self, AllocError>
        ensures { IfOk result (λ users. (thread : ℕ) → user_in users thread ≡ nobody) }
    {
        let nobody = LibraryUser {
            place: None,
            number: None,
        };
        Ok(LibraryUsers {
            users: vec![in alloc; nobody; 256]?,
        })
    }

    /// Takes what an event tells of a thread's calls.
    pub(crate) fn note(&mut self, event: &ObservedEvent)
        ensures { (thread : ℕ) → user_in self.new thread ≡ user_after (user_in self.old) event.now thread }
    {
        match event {
            ObservedEvent::Caller { thread, pc } => {
                self.users[usize::from(*thread)].place = Some(*pc);
            }
            ObservedEvent::Hint(hint) => self.begin(hint),
            _ => {}
        }
    }

    /// Takes the program's number of a thread, if a hint tells it.
    fn begin(&mut self, hint: &HintEvent)
        ensures { (thread : ℕ) → user_in self.new thread ≡ user_after (user_in self.old) (Hint hint.now) thread }
    {
        if let HintKind::Begin = hint.kind {
            self.users[usize::from(hint.site.thread)].number = Some(hint.object);
        }
    }

    /// The hint that an event is, with the call of the library that gave it.
    pub(crate) fn called(&self, event: &ObservedEvent) -> Option<CalledHint>
        ensures { hints_of (user_in self.now) event.now ≡ option_to_list result }
    {
        match event {
            ObservedEvent::Hint(hint) => Some(self.called_hint(hint)),
            _ => None,
        }
    }

    /// A hint with the call of the library that gave it.
    fn called_hint(&self, hint: &HintEvent) -> CalledHint
        ensures { hints_of (user_in self.now) (Hint hint.now) ≡ result ∷ [] }
    {
        let site = hint.site;
        let user = self.user(site.thread);
        CalledHint {
            call: LibraryCall {
                turn: site.turn,
                instruction: site.instruction,
                pc: user.place.unwrap_or(site.pc),
                thread: user.number.unwrap_or(u32::from(site.thread)),
            },
            kind: hint.kind,
            object: hint.object,
        }
    }

    /// What is known of a thread's calls.
    fn user(&self, thread: u8) -> LibraryUser
        ensures { result ≡ user_in self.now thread }
    {
        self.users[usize::from(thread)]
    }
}
