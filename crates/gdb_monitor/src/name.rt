//! The names of the commands.
ghost use Rattle.std.specs.Prelude.{◌≡◌};
ghost use Rattle.gdb_monitor.specs.Commands.{name_in, word_of};

/// The first word of a command.
#[derive(Clone, Copy)]
pub(crate) enum Name {
    /// The list of the commands.
    Help,
    /// The position.
    Where,
    /// The position too.
    When,
    /// To a turn.
    Turn,
    /// To a step.
    Go,
    /// Lines of the trace.
    Trace,
    /// What each thread does.
    Threads,
    /// Who holds mutexes, and who waits.
    Locks,
    /// The turns that changed some bytes.
    Writers,
    /// Bytes of the shared memory.
    Shared,
    /// What the guest has written.
    Output,
}

/// All names.
static NAMES: [Name; 11] = [
    Name::Help,
    Name::Where,
    Name::When,
    Name::Turn,
    Name::Go,
    Name::Trace,
    Name::Threads,
    Name::Locks,
    Name::Writers,
    Name::Shared,
    Name::Output,
];

impl Name {
    /// The name that a word is, none if it is none.
    #[tactic(auto, unfolding(crate::specs::Commands::name_in))]
    pub(crate) fn of_word(word: &[u8]) -> Option<Self>
        ensures { result ≡ name_in word.now }
    {
        NAMES
            .iter()
            .copied()
            .find(|name| name.word().as_bytes() == word)
    }

    /// Its word.
    fn word(self) -> &'static str
        ensures { result.now ≡ word_of self }
    {
        match self {
            Name::Help => "help",
            Name::Where => "where",
            Name::When => "when",
            Name::Turn => "turn",
            Name::Go => "go",
            Name::Trace => "trace",
            Name::Threads => "threads",
            Name::Locks => "locks",
            Name::Writers => "writers",
            Name::Shared => "shared",
            Name::Output => "output",
        }
    }
}
