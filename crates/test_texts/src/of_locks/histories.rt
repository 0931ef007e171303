//! The histories of the rows: small ones, whose faults and misuses are worked out by hand.
use crate::of_locks::rows::{Row, Told};
use crate::of_symbols::Written;
use races::{HintEvent, HintKind, HintSite};

/// A symbol of section 1: an object of 4 bytes, or a function of 64.
macro_rules! symbol {
    ($name:expr, $value:expr, $size:expr, $info:expr) => {
        Written {
            name: $name,
            value: $value,
            size: $size,
            info: $info,
            section: 1,
        }
    };
}

/// The locks `a`, `b`, `c` and `g`, and the functions `left` and `right`.
pub const SYMBOLS: [Written; 6] = [
    symbol!("a", A, 4, 0x11),
    symbol!("b", B, 4, 0x11),
    symbol!("c", C, 4, 0x11),
    symbol!("g", G, 4, 0x11),
    symbol!("left", LEFT, 64, 0x12),
    symbol!("right", RIGHT, 64, 0x12),
];

const A: u32 = 0x1_6010;

const B: u32 = 0x1_6020;

const C: u32 = 0x1_6030;

const G: u32 = 0x1_6040;

const LEFT: u32 = 0x1_0100;

const RIGHT: u32 = 0x1_0200;

/// A hint of a kind about an object, by a thread in a turn after so many instructions. It stands in the library, at 00020000.
macro_rules! hint {
    ($kind:ident, $object:expr, $thread:expr, $turn:expr, $instruction:expr) => {
        Told::Hint(HintEvent {
            site: HintSite {
                turn: $turn,
                instruction: $instruction,
                pc: 0x2_0000,
                thread: $thread,
            },
            kind: HintKind::$kind,
            object: $object,
        })
    };
}

/// The rows.
pub static ROWS: [Row; 21] = [
    // Each thread takes the second lock while it holds the first.
    Row {
        name: "two locks in both orders",
        history: &[
            Told::Caller(1, LEFT + 8),
            hint!(Lock, A, 1, 8, 4),
            Told::Caller(1, LEFT + 16),
            hint!(Lock, B, 1, 9, 2),
            hint!(Unlock, B, 1, 10, 2),
            hint!(Unlock, A, 1, 10, 9),
            Told::Caller(2, RIGHT + 8),
            hint!(Lock, B, 2, 11, 2),
            Told::Caller(2, RIGHT + 16),
            hint!(Lock, A, 2, 12, 2),
            hint!(Unlock, A, 2, 13, 2),
            hint!(Unlock, B, 2, 13, 9),
        ],
        text: "order a+0 b+0 thread=1 turn=9+2 in=left+16 thread=2 turn=12+2 in=right+16\n",
    },
    // Both take `a` first.
    Row {
        name: "two locks in one order",
        history: &[
            Told::Caller(1, LEFT + 8),
            hint!(Lock, A, 1, 8, 4),
            Told::Caller(1, LEFT + 16),
            hint!(Lock, B, 1, 9, 2),
            hint!(Unlock, B, 1, 10, 2),
            hint!(Unlock, A, 1, 10, 9),
            hint!(Lock, A, 2, 11, 2),
            hint!(Lock, B, 2, 12, 2),
        ],
        text: "",
    },
    // A thread takes them in both orders, and never waits for itself.
    Row {
        name: "one thread in both orders",
        history: &[
            Told::Caller(1, LEFT + 8),
            hint!(Lock, A, 1, 8, 4),
            Told::Caller(1, LEFT + 16),
            hint!(Lock, B, 1, 9, 2),
            hint!(Unlock, B, 1, 10, 2),
            hint!(Unlock, A, 1, 10, 9),
            hint!(Lock, B, 1, 11, 2),
            hint!(Lock, A, 1, 12, 2),
        ],
        text: "",
    },
    // Each holds `g` meanwhile.
    Row {
        name: "a gate lock",
        history: &[
            hint!(Lock, G, 1, 7, 1),
            Told::Caller(1, LEFT + 8),
            hint!(Lock, A, 1, 8, 4),
            Told::Caller(1, LEFT + 16),
            hint!(Lock, B, 1, 9, 2),
            hint!(Unlock, B, 1, 10, 2),
            hint!(Unlock, A, 1, 10, 9),
            hint!(Unlock, G, 1, 10, 20),
            hint!(Lock, G, 2, 10, 1),
            Told::Caller(2, RIGHT + 8),
            hint!(Lock, B, 2, 11, 2),
            Told::Caller(2, RIGHT + 16),
            hint!(Lock, A, 2, 12, 2),
            hint!(Unlock, A, 2, 13, 2),
            hint!(Unlock, B, 2, 13, 9),
        ],
        text: "",
    },
    // Each shares `g` meanwhile, which both may do at once.
    Row {
        name: "a gate that both share",
        history: &[
            hint!(Share, G, 1, 7, 1),
            Told::Caller(1, LEFT + 8),
            hint!(Lock, A, 1, 8, 4),
            Told::Caller(1, LEFT + 16),
            hint!(Lock, B, 1, 9, 2),
            hint!(Unlock, B, 1, 10, 2),
            hint!(Unlock, A, 1, 10, 9),
            hint!(Unlock, G, 1, 10, 20),
            hint!(Share, G, 2, 10, 1),
            Told::Caller(2, RIGHT + 8),
            hint!(Lock, B, 2, 11, 2),
            Told::Caller(2, RIGHT + 16),
            hint!(Lock, A, 2, 12, 2),
            hint!(Unlock, A, 2, 13, 2),
            hint!(Unlock, B, 2, 13, 9),
        ],
        text: "order a+0 b+0 thread=1 turn=9+2 in=left+16 thread=2 turn=12+2 in=right+16\n",
    },
    // One shares `g` meanwhile, and the other one has it alone.
    Row {
        name: "a gate that one shares",
        history: &[
            hint!(Share, G, 1, 7, 1),
            Told::Caller(1, LEFT + 8),
            hint!(Lock, A, 1, 8, 4),
            Told::Caller(1, LEFT + 16),
            hint!(Lock, B, 1, 9, 2),
            hint!(Unlock, B, 1, 10, 2),
            hint!(Unlock, A, 1, 10, 9),
            hint!(Unlock, G, 1, 10, 20),
            hint!(Lock, G, 2, 10, 1),
            Told::Caller(2, RIGHT + 8),
            hint!(Lock, B, 2, 11, 2),
            Told::Caller(2, RIGHT + 16),
            hint!(Lock, A, 2, 12, 2),
            hint!(Unlock, A, 2, 13, 2),
            hint!(Unlock, B, 2, 13, 9),
        ],
        text: "",
    },
    // One has let `a` go before it takes `b`.
    Row {
        name: "an unlock between",
        history: &[
            hint!(Lock, A, 1, 8, 4),
            hint!(Unlock, A, 1, 8, 9),
            hint!(Lock, B, 1, 9, 2),
            hint!(Unlock, B, 1, 10, 2),
            Told::Caller(2, RIGHT + 8),
            hint!(Lock, B, 2, 11, 2),
            Told::Caller(2, RIGHT + 16),
            hint!(Lock, A, 2, 12, 2),
            hint!(Unlock, A, 2, 13, 2),
            hint!(Unlock, B, 2, 13, 9),
        ],
        text: "",
    },
    // One takes `b` by a call that does not wait.
    Row {
        name: "a try lock waits for nothing",
        history: &[
            hint!(Lock, A, 1, 8, 4),
            hint!(TryLock, B, 1, 9, 2),
            hint!(Unlock, B, 1, 10, 2),
            hint!(Unlock, A, 1, 10, 9),
            Told::Caller(2, RIGHT + 8),
            hint!(Lock, B, 2, 11, 2),
            Told::Caller(2, RIGHT + 16),
            hint!(Lock, A, 2, 12, 2),
            hint!(Unlock, A, 2, 13, 2),
            hint!(Unlock, B, 2, 13, 9),
        ],
        text: "",
    },
    // One has taken `a` by a call that does not wait, and waits for `b`.
    Row {
        name: "a try lock is held",
        history: &[
            hint!(TryLock, A, 1, 8, 4),
            Told::Caller(1, LEFT + 16),
            hint!(Lock, B, 1, 9, 2),
            hint!(Unlock, B, 1, 10, 2),
            hint!(Unlock, A, 1, 10, 9),
            Told::Caller(2, RIGHT + 8),
            hint!(Lock, B, 2, 11, 2),
            Told::Caller(2, RIGHT + 16),
            hint!(Lock, A, 2, 12, 2),
            hint!(Unlock, A, 2, 13, 2),
            hint!(Unlock, B, 2, 13, 9),
        ],
        text: "order a+0 b+0 thread=1 turn=9+2 in=left+16 thread=2 turn=12+2 in=right+16\n",
    },
    // The same again: the first two calls are told.
    Row {
        name: "each two locks once",
        history: &[
            Told::Caller(1, LEFT + 8),
            hint!(Lock, A, 1, 8, 4),
            Told::Caller(1, LEFT + 16),
            hint!(Lock, B, 1, 9, 2),
            hint!(Unlock, B, 1, 10, 2),
            hint!(Unlock, A, 1, 10, 9),
            Told::Caller(2, RIGHT + 8),
            hint!(Lock, B, 2, 11, 2),
            Told::Caller(2, RIGHT + 16),
            hint!(Lock, A, 2, 12, 2),
            hint!(Unlock, A, 2, 13, 2),
            hint!(Unlock, B, 2, 13, 9),
            Told::Caller(1, LEFT + 32),
            hint!(Lock, A, 1, 20, 4),
            hint!(Lock, B, 1, 21, 2),
            hint!(Unlock, B, 1, 22, 2),
            hint!(Unlock, A, 1, 22, 9),
            hint!(Lock, B, 2, 23, 2),
            hint!(Lock, A, 2, 24, 2),
        ],
        text: "order a+0 b+0 thread=1 turn=9+2 in=left+16 thread=2 turn=12+2 in=right+16\n",
    },
    // Readers wait too, for a writer that waits.
    Row {
        name: "shared locks in both orders",
        history: &[
            hint!(Share, A, 1, 8, 4),
            Told::Caller(1, LEFT + 16),
            hint!(Share, B, 1, 9, 2),
            hint!(Unlock, B, 1, 10, 2),
            hint!(Unlock, A, 1, 10, 9),
            hint!(Share, B, 2, 11, 2),
            Told::Caller(2, RIGHT + 16),
            hint!(TryShare, C, 2, 11, 9),
            hint!(Share, A, 2, 12, 2),
        ],
        text: "order a+0 b+0 thread=1 turn=9+2 in=left+16 thread=2 turn=12+2 in=right+16\n",
    },
    // A thread shares `a` twice, and lets it go once.
    Row {
        name: "a lock that is shared twice",
        history: &[
            hint!(Share, A, 1, 8, 1),
            hint!(Share, A, 1, 8, 4),
            hint!(Unlock, A, 1, 8, 9),
            Told::Caller(1, LEFT + 16),
            hint!(Lock, B, 1, 9, 2),
            hint!(Unlock, B, 1, 10, 2),
            hint!(Unlock, A, 1, 10, 9),
            hint!(Unlock, A, 1, 10, 12),
            Told::Caller(2, RIGHT + 8),
            hint!(Lock, B, 2, 11, 2),
            Told::Caller(2, RIGHT + 16),
            hint!(Lock, A, 2, 12, 2),
            hint!(Unlock, A, 2, 13, 2),
            hint!(Unlock, B, 2, 13, 9),
        ],
        text: "order a+0 b+0 thread=1 turn=9+2 in=left+16 thread=2 turn=12+2 in=right+16\n",
    },
    // Three threads take three locks in a ring: no two of them are in both orders.
    Row {
        name: "a ring of three locks",
        history: &[
            hint!(Lock, A, 1, 8, 1),
            hint!(Lock, B, 1, 8, 2),
            hint!(Unlock, B, 1, 8, 3),
            hint!(Unlock, A, 1, 8, 4),
            hint!(Lock, B, 2, 9, 1),
            hint!(Lock, C, 2, 9, 2),
            hint!(Unlock, C, 2, 9, 3),
            hint!(Unlock, B, 2, 9, 4),
            hint!(Lock, C, 3, 10, 1),
            hint!(Lock, A, 3, 10, 2),
        ],
        text: "",
    },
    // A machine thread runs two threads of the program one after the other. The second lock has no symbol, and the second call no function.
    Row {
        name: "numbers of the program",
        history: &[
            hint!(Begin, 5, 1, 8, 1),
            Told::Caller(1, LEFT + 8),
            hint!(Lock, A, 1, 8, 4),
            hint!(Lock, 0x2000_0410, 1, 9, 2),
            hint!(Unlock, 0x2000_0410, 1, 10, 2),
            hint!(Unlock, A, 1, 10, 9),
            hint!(Begin, 6, 1, 11, 1),
            Told::Caller(1, 0x1_0300),
            hint!(Lock, 0x2000_0410, 1, 11, 2),
            hint!(Lock, A, 1, 12, 2),
        ],
        text: "order a+0 address=20000410 thread=5 turn=9+2 in=left+8 thread=6 turn=12+2 pc=00010300\n",
    },
    // Faults of two pairs of locks, in the order of the later calls.
    Row {
        name: "two pairs of locks",
        history: &[
            hint!(Lock, A, 1, 1, 1),
            hint!(Lock, B, 1, 1, 2),
            hint!(Lock, C, 1, 1, 3),
            hint!(Unlock, C, 1, 1, 4),
            hint!(Unlock, B, 1, 1, 5),
            hint!(Unlock, A, 1, 1, 6),
            hint!(Lock, C, 2, 2, 1),
            hint!(Lock, A, 2, 2, 2),
            hint!(Unlock, A, 2, 2, 3),
            hint!(Lock, B, 2, 2, 4),
        ],
        text: "order a+0 c+0 thread=1 turn=1+3 pc=00020000 thread=2 turn=2+2 pc=00020000\norder b+0 c+0 thread=1 turn=1+3 pc=00020000 thread=2 turn=2+4 pc=00020000\n",
    },
    // A thread unlocks what another one has locked.
    Row {
        name: "an unlock of another's lock",
        history: &[
            Told::Caller(1, LEFT + 8),
            hint!(Lock, A, 1, 11, 4),
            Told::Caller(2, RIGHT + 36),
            hint!(UnlockOfAnothers, A, 2, 14, 9),
        ],
        text: "misuse unlock-of-anothers object=a+0 thread=2 turn=14+9 in=right+36 held-by thread=1 since=11+4\n",
    },
    // The same place tells it once for each object and kind; another place tells it again.
    Row {
        name: "each misuse once",
        history: &[
            Told::Caller(1, LEFT + 8),
            hint!(UnlockOfFree, A, 1, 1, 1),
            hint!(UnlockOfFree, A, 1, 2, 1),
            hint!(UnlockOfFree, B, 1, 3, 1),
            hint!(DestroyOfHeld, A, 1, 4, 1),
            Told::Caller(2, LEFT + 8),
            hint!(UnlockOfFree, A, 2, 5, 1),
            Told::Caller(2, LEFT + 12),
            hint!(UnlockOfFree, A, 2, 6, 1),
        ],
        text: "misuse unlock-of-free object=a+0 thread=1 turn=1+1 in=left+8\nmisuse unlock-of-free object=b+0 thread=1 turn=3+1 in=left+8\nmisuse destroy-of-held object=a+0 thread=1 turn=4+1 in=left+8\nmisuse unlock-of-free object=a+0 thread=2 turn=6+1 in=left+12\n",
    },
    // Two threads share it: the first in number is told, with the time of its first call.
    Row {
        name: "a holder of several",
        history: &[
            hint!(Share, A, 3, 1, 1),
            hint!(Share, A, 2, 2, 1),
            hint!(Share, A, 2, 3, 1),
            hint!(Share, B, 1, 3, 2),
            hint!(DestroyOfHeld, A, 4, 4, 1),
        ],
        text: "misuse destroy-of-held object=a+0 thread=4 turn=4+1 pc=00020000 held-by thread=2 since=2+1\n",
    },
    // A thread ends with it, and another one takes it.
    Row {
        name: "an owner that ended",
        history: &[
            hint!(Lock, A, 1, 1, 1),
            hint!(EndWithLock, A, 1, 1, 5),
            hint!(Lock, A, 2, 2, 1),
            hint!(UnlockOfAnothers, A, 3, 3, 1),
        ],
        text: "misuse end-with-lock object=a+0 thread=1 turn=1+5 pc=00020000 held-by thread=1 since=1+1\nmisuse unlock-of-anothers object=a+0 thread=3 turn=3+1 pc=00020000 held-by thread=2 since=2+1\n",
    },
    // Nobody holds it any more.
    Row {
        name: "a holder that let go",
        history: &[
            hint!(Lock, A, 1, 1, 1),
            hint!(Unlock, A, 1, 2, 1),
            hint!(WaitWithoutLock, A, 1, 3, 1),
        ],
        text: "misuse wait-without-lock object=a+0 thread=1 turn=3+1 pc=00020000\n",
    },
    // The other kinds.
    Row {
        name: "the names of misuse",
        history: &[
            hint!(EndWithLock, A, 1, 1, 1),
            hint!(DestroyOfWaited, A, 1, 1, 2),
            hint!(WaitWithAnother, A, 1, 1, 3),
            hint!(TakenTwice, A, 1, 1, 4),
            hint!(WriteByReader, 0x2000_0410, 1, 1, 5),
        ],
        text: "misuse end-with-lock object=a+0 thread=1 turn=1+1 pc=00020000\nmisuse destroy-of-waited object=a+0 thread=1 turn=1+2 pc=00020000\nmisuse wait-with-another object=a+0 thread=1 turn=1+3 pc=00020000\nmisuse taken-twice object=a+0 thread=1 turn=1+4 pc=00020000\nmisuse write-by-reader address=20000410 thread=1 turn=1+5 pc=00020000\n",
    },
];
