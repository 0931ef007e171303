//! What is looked for: instructions at some addresses, and loads and stores of some ranges.
ghost use Rattle.std.specs.Prelude.{◌≡◌, ◌+◌, ◌<◌, ◌^◌};
ghost use Rattle.marked_memory.specs.Marks.{any_marked, is_load_marked, is_marked_by, is_store_marked};

use crate::watch::Watch;

/// What is looked for.
#[derive(Clone, Copy, Debug)]
pub struct Marks<'a> {
    /// The addresses of instructions.
    pub breakpoints: &'a [u32],
    /// The ranges of loads and stores.
    pub watches: &'a [Watch],
}

impl<'a> Marks<'a> {
    /// Whether an address is one of the four of a marked instruction.
    #[tactic(auto, using(std::proofs::lemmas::List::Folds::list_any_at, std::proofs::lemmas::List::Folds::list_any_more))]
    pub(crate) fn marks_byte(&self, address: u32) -> bool
        ensures { result ≡ is_marked_by self.now.breakpoints.now address }
    {
        for breakpoint in self.breakpoints {
            if *breakpoint <= address && address - *breakpoint < 4 {
                return true;
            }
        }
        false
    }

    /// Whether loads of an address are marked.
    #[tactic(auto, unfolding(crate::specs::Marks::is_load_marked), using(std::proofs::lemmas::List::Folds::list_any_at, std::proofs::lemmas::List::Folds::list_any_more))]
    pub(crate) fn marks_load(&self, address: u32) -> bool
        ensures { result ≡ is_load_marked self.now.watches.now address }
    {
        for watch in self.watches {
            if watch.looks_for_loads() && watch.has(address) {
                return true;
            }
        }
        false
    }

    /// Whether stores to an address are marked.
    #[tactic(auto, unfolding(crate::specs::Marks::is_store_marked), using(std::proofs::lemmas::List::Folds::list_any_at, std::proofs::lemmas::List::Folds::list_any_more))]
    pub(crate) fn marks_store(&self, address: u32) -> bool
        ensures { result ≡ is_store_marked self.now.watches.now address }
    {
        for watch in self.watches {
            if watch.looks_for_stores() && watch.has(address) {
                return true;
            }
        }
        false
    }

    /// Whether loads of one of two addresses are marked.
    #[tactic(auto, unfolding(crate::specs::Marks::any_marked))]
    pub(crate) fn marks_load16(&self, address: u32) -> bool
        requires { address + 1 < 2 ^ 32 }
        ensures { result ≡ any_marked (is_load_marked self.now.watches.now) 2 address }
    {
        self.marks_load(address) || self.marks_load(address + 1)
    }

    /// Whether loads of one of four addresses are marked.
    #[tactic(auto, unfolding(crate::specs::Marks::any_marked))]
    pub(crate) fn marks_load32(&self, address: u32) -> bool
        requires { address + 3 < 2 ^ 32 }
        ensures { result ≡ any_marked (is_load_marked self.now.watches.now) 4 address }
    {
        self.marks_load(address)
            || self.marks_load(address + 1)
            || self.marks_load(address + 2)
            || self.marks_load(address + 3)
    }

    /// Whether stores to one of two addresses are marked.
    #[tactic(auto, unfolding(crate::specs::Marks::any_marked))]
    pub(crate) fn marks_store16(&self, address: u32) -> bool
        requires { address + 1 < 2 ^ 32 }
        ensures { result ≡ any_marked (is_store_marked self.now.watches.now) 2 address }
    {
        self.marks_store(address) || self.marks_store(address + 1)
    }

    /// Whether stores to one of four addresses are marked.
    #[tactic(auto, unfolding(crate::specs::Marks::any_marked))]
    pub(crate) fn marks_store32(&self, address: u32) -> bool
        requires { address + 3 < 2 ^ 32 }
        ensures { result ≡ any_marked (is_store_marked self.now.watches.now) 4 address }
    {
        self.marks_store(address)
            || self.marks_store(address + 1)
            || self.marks_store(address + 2)
            || self.marks_store(address + 3)
    }
}
