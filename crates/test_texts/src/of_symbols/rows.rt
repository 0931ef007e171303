//! The rows: what addresses of files are called, worked out by hand from the fields.
use crate::of_symbols::change::Change;
use crate::of_symbols::file::Written;
use crate::of_symbols::row::{Row, Wanted};

/// Types and bindings (System V ABI, Symbol Table: ELF32_ST_INFO).
const LOCAL_OBJECT: u8 = 0x01;

const LOCAL_FUNCTION: u8 = 0x02;

const LOCAL_SECTION: u8 = 0x03;

const GLOBAL_PLAIN: u8 = 0x10;

const GLOBAL_OBJECT: u8 = 0x11;

const GLOBAL_FUNCTION: u8 = 0x12;

const GLOBAL_THREAD: u8 = 0x16;

const WEAK_OBJECT: u8 = 0x21;

/// A symbol of section 1, or of another one.
macro_rules! symbol {
    ($name:expr, $value:expr, $size:expr, $info:expr) => {
        symbol!($name, $value, $size, $info, 1)
    };
    ($name:expr, $value:expr, $size:expr, $info:expr, $section:expr) => {
        Written {
            name: $name,
            value: $value,
            size: $size,
            info: $info,
            section: $section,
        }
    };
}

/// An address that is called so.
macro_rules! at {
    ($address:expr, $object:expr, $function:expr) => {
        Wanted {
            address: $address,
            object: $object,
            function: $function,
        }
    };
}

/// A row of a whole file.
macro_rules! whole {
    ($name:expr, $symbols:expr, $wanted:expr) => {
        Row {
            name: $name,
            symbols: &$symbols,
            change: None,
            wanted: &$wanted,
        }
    };
}

/// A row of the plain file with a change.
macro_rules! changed {
    ($name:expr, $change:expr, $wanted:expr) => {
        Row {
            name: $name,
            symbols: &PLAIN,
            change: Some($change),
            wanted: &$wanted,
        }
    };
}

/// An object of 4 bytes at 00016038, and a function of 32 bytes at 00010180.
const PLAIN: [Written; 2] = [
    symbol!("counter", 0x1_6038, 4, GLOBAL_OBJECT),
    symbol!("work", 0x1_0180, 0x20, LOCAL_FUNCTION),
];

/// The names of the plain file that are left: both, that of its object, or none.
const BOTH: [Wanted; 2] = [at!(0x1_6038, "counter+0", ""), at!(0x1_0180, "", "work+0")];

const COUNTER: [Wanted; 2] = [at!(0x1_6038, "counter+0", ""), at!(0x1_0180, "", "")];

const NEITHER: [Wanted; 2] = [at!(0x1_6038, "", ""), at!(0x1_0180, "", "")];

/// The rows.
pub static ROWS: [Row; 36] = [
    // Addresses at the edges of symbols.
    whole!(
        "an object",
        PLAIN,
        [
            at!(0x1_6037, "", ""),
            at!(0x1_6038, "counter+0", ""),
            at!(0x1_603B, "counter+3", ""),
            at!(0x1_603C, "", ""),
        ]
    ),
    whole!(
        "a function",
        PLAIN,
        [
            at!(0x1_017F, "", ""),
            at!(0x1_0180, "", "work+0"),
            at!(0x1_019F, "", "work+31"),
            at!(0x1_01A0, "", ""),
        ]
    ),
    whole!(
        "past the last address",
        [symbol!("last", 0xFFFF_FFF0, 0x20, GLOBAL_OBJECT)],
        [
            at!(0xFFFF_FFEF, "", ""),
            at!(0xFFFF_FFFF, "last+15", ""),
            at!(0, "", ""),
            at!(0xF, "", ""),
        ]
    ),
    whole!(
        "nearly all addresses",
        [symbol!("all", 0, 0xFFFF_FFFF, LOCAL_OBJECT)],
        [
            at!(0xFFFF_FFFE, "all+4294967294", ""),
            at!(0xFFFF_FFFF, "", ""),
        ]
    ),
    whole!("no symbol", [], [at!(0, "", ""), at!(0x1_6038, "", "")]),
    // Several symbols that cover an address.
    whole!(
        "the smaller one",
        [
            symbol!("whole", 0x2_0000, 16, GLOBAL_OBJECT),
            symbol!("part", 0x2_0008, 4, LOCAL_OBJECT),
        ],
        [
            at!(0x2_0007, "whole+7", ""),
            at!(0x2_0008, "part+0", ""),
            at!(0x2_000C, "whole+12", ""),
        ]
    ),
    whole!(
        "the first one",
        [
            symbol!("left", 0x2_0000, 8, GLOBAL_OBJECT),
            symbol!("right", 0x2_0004, 8, GLOBAL_OBJECT),
        ],
        [at!(0x2_0005, "left+5", ""), at!(0x2_0008, "right+4", "")]
    ),
    whole!(
        "a global one",
        [
            symbol!("weak", 0x2_0000, 8, WEAK_OBJECT),
            symbol!("local", 0x2_0000, 8, LOCAL_OBJECT),
            symbol!("global", 0x2_0004, 8, GLOBAL_OBJECT),
            symbol!("second", 0x2_0000, 8, GLOBAL_OBJECT),
        ],
        [at!(0x2_0003, "second+3", ""), at!(0x2_0004, "global+0", "")]
    ),
    whole!(
        "an object and a function",
        [
            symbol!("data", 0x2_0000, 8, GLOBAL_OBJECT),
            symbol!("code", 0x2_0000, 4, GLOBAL_FUNCTION),
        ],
        [at!(0x2_0003, "data+3", "code+3")]
    ),
    // Symbols that are left out for their fields.
    whole!(
        "an empty one",
        [
            symbol!("label", 0x2_0000, 0, GLOBAL_OBJECT),
            symbol!("data", 0x2_0000, 8, LOCAL_OBJECT),
        ],
        [at!(0x2_0000, "data+0", "")]
    ),
    whole!(
        "another type",
        [
            symbol!("plain", 0x2_0000, 8, GLOBAL_PLAIN),
            symbol!("section", 0x2_0000, 8, LOCAL_SECTION),
            symbol!("thread", 0x2_0000, 8, GLOBAL_THREAD),
        ],
        [at!(0x2_0000, "", "")]
    ),
    whole!(
        "not defined",
        [symbol!("nowhere", 0x2_0000, 8, GLOBAL_OBJECT, 0)],
        [at!(0x2_0000, "", "")]
    ),
    whole!(
        "in no section of the file",
        [symbol!("fixed", 0x2_0000, 8, GLOBAL_OBJECT, 0xFFF1)],
        [at!(0x2_0001, "fixed+1", "")]
    ),
    // Names that are kept and left out.
    whole!(
        "names",
        [
            symbol!("", 0x2_0000, 1, GLOBAL_OBJECT),
            symbol!("two words", 0x2_0001, 1, GLOBAL_OBJECT),
            symbol!("a=b", 0x2_0002, 1, GLOBAL_OBJECT),
            symbol!("line\n", 0x2_0003, 1, GLOBAL_OBJECT),
            symbol!("caf\u{e9}", 0x2_0004, 1, GLOBAL_OBJECT),
            symbol!("end\u{7f}", 0x2_0005, 1, GLOBAL_OBJECT),
            symbol!("!$.<>~", 0x2_0006, 1, GLOBAL_OBJECT),
        ],
        [
            at!(0x2_0000, "", ""),
            at!(0x2_0001, "", ""),
            at!(0x2_0002, "", ""),
            at!(0x2_0003, "", ""),
            at!(0x2_0004, "", ""),
            at!(0x2_0005, "", ""),
            at!(0x2_0006, "!$.<>~+0", ""),
        ]
    ),
    whole!(
        "long names",
        [
            symbol!(LONGEST, 0x2_0000, 1, GLOBAL_OBJECT),
            symbol!(TOO_LONG, 0x2_0001, 1, GLOBAL_OBJECT),
        ],
        [at!(0x2_0000, LONGEST_AT_0, ""), at!(0x2_0001, "", "")]
    ),
    // Files that are damaged, and keep some of their names. The strings are a zero, "counter", a zero, "work" and a zero, from 52 on.
    changed!("a name with no end", Change::OfStrings(20, 13), COUNTER),
    changed!("a name past it", Change::OfStrings(20, 9), COUNTER),
    changed!(
        "a shorter name",
        Change::OfStrings(16, 53),
        [at!(0x1_6038, "ounter+0", "")]
    ),
    changed!("half an entry", Change::OfTable(20, 31), COUNTER),
    changed!("a second table", Change::OfStrings(4, 2), BOTH),
    // Files that are damaged, and keep none of their names. The section headers are at 98, and the file's end is at 218.
    changed!(
        "strings past the end",
        Change::OfStrings(20, 0xFFFF_FFFF),
        NEITHER
    ),
    changed!(
        "strings far away",
        Change::OfStrings(16, 0xFFFF_FFFF),
        NEITHER
    ),
    changed!("no string table", Change::OfTable(24, 0), NEITHER),
    changed!("a link past the sections", Change::OfTable(24, 3), NEITHER),
    changed!("a far link", Change::OfTable(24, 0xFFFF_FFFF), NEITHER),
    changed!(
        "a table past the end",
        Change::OfTable(20, 0xFFFF_FFFF),
        NEITHER
    ),
    changed!(
        "a table far away",
        Change::OfTable(16, 0xFFFF_FFFF),
        NEITHER
    ),
    changed!("no symbol table", Change::OfTable(4, 11), NEITHER),
    changed!("an empty table before it", Change::Word(102, 2), NEITHER),
    changed!(
        "headers past the end",
        Change::Word(32, 0xFFFF_FFFF),
        NEITHER
    ),
    changed!("headers a byte later", Change::Word(32, 99), NEITHER),
    changed!("headers of 39 bytes", Change::Half(46, 39), NEITHER),
    changed!("headers of 64 bytes", Change::Half(46, 64), NEITHER),
    changed!("no section", Change::Half(48, 0), NEITHER),
    changed!("a section too many", Change::Half(48, 4), NEITHER),
    changed!("a section too few", Change::Half(48, 2), NEITHER),
];

/// A name of 255 bytes.
const LONGEST: &str =
    "n000_n001_n002_n003_n004_n005_n006_n007_n008_n009_n010_n011_n012_n013_n014_n015_n016_n017_n018_n019_n020_n021_n022_n023_n024_n025_n026_n027_n028_n029_n030_n031_n032_n033_n034_n035_n036_n037_n038_n039_n040_n041_n042_n043_n044_n045_n046_n047_n048_n049_n050_";

/// The first byte of its symbol.
const LONGEST_AT_0: &str =
    "n000_n001_n002_n003_n004_n005_n006_n007_n008_n009_n010_n011_n012_n013_n014_n015_n016_n017_n018_n019_n020_n021_n022_n023_n024_n025_n026_n027_n028_n029_n030_n031_n032_n033_n034_n035_n036_n037_n038_n039_n040_n041_n042_n043_n044_n045_n046_n047_n048_n049_n050_+0";

/// A name of 256 bytes.
const TOO_LONG: &str =
    "n000_n001_n002_n003_n004_n005_n006_n007_n008_n009_n010_n011_n012_n013_n014_n015_n016_n017_n018_n019_n020_n021_n022_n023_n024_n025_n026_n027_n028_n029_n030_n031_n032_n033_n034_n035_n036_n037_n038_n039_n040_n041_n042_n043_n044_n045_n046_n047_n048_n049_n050_x";
