//! What a packet that resumes orders.
ghost use Rattle.std.specs.Prelude.{◌≡◌, ◌&&◌, nat_le, nat_lt, not};
ghost use Rattle.gdb_orders.specs.Orders.{alone_in, alone_of, is_step};

/// How the run is to move.
#[derive(Clone, Copy, Debug, PartialEq, Eq)]
pub enum Order {
    /// Until something stops it, with all threads or one alone.
    Continue { alone: Option<u32> },
    /// A step of a thread.
    Step(Stepper),
}

/// A thread that is stepped, one instruction at least, and on while its pc is in a range.
#[derive(Clone, Copy, Debug, PartialEq, Eq)]
pub struct Stepper {
    /// The thread's number.
    pub thread: u32,
    /// The first address of the range.
    pub start: u32,
    /// The address after the range, which is empty if this is no more than `start`.
    pub end: u32,
    /// Whether it moves alone.
    pub is_alone: bool,
}

impl Stepper {
    /// The thread that moves alone, if one does.
    pub fn alone(&self) -> Option<u32>
        ensures { result ≡ alone_in self.now }
    {
        if self.is_alone {
            Some(self.thread)
        } else {
            None
        }
    }

    /// Whether it executes more than one instruction if they are in its range.
    pub fn has_range(&self) -> bool
        ensures { result ≡ nat_lt self.now.start self.now.end }
    {
        self.start < self.end
    }

    /// Whether an address is in its range.
    pub fn is_within(&self, pc: u32) -> bool
        ensures { result ≡ (nat_le self.now.start pc && nat_lt pc self.now.end) }
    {
        self.start <= pc && pc < self.end
    }
}

impl Order {
    /// The thread that moves alone, if one does.
    pub fn alone(&self) -> Option<u32>
        ensures { result ≡ alone_of self.now }
    {
        match self {
            Order::Continue { alone } => *alone,
            Order::Step(stepper) => stepper.alone(),
        }
    }

    /// Whether it is a step of a thread alone.
    pub fn is_step_alone(&self) -> bool
        ensures { result ≡ is_step self.now (λ stepper. stepper.is_alone) }
    {
        match self {
            Order::Continue { .. } => false,
            Order::Step(stepper) => stepper.is_alone,
        }
    }

    /// Whether it is a step of a thread among others.
    pub fn is_step_among_others(&self) -> bool
        ensures { result ≡ is_step self.now (λ stepper. not stepper.is_alone) }
    {
        match self {
            Order::Continue { .. } => false,
            Order::Step(stepper) => !stepper.is_alone,
        }
    }
}
