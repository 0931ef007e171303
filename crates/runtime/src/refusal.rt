//! Why no run begins: what it is given is refused.
use elf32_reader::ElfFault;

/// Why no run begins. The configuration is looked at first, then the input, then the file.
#[derive(Clone, Copy, Debug, PartialEq, Eq)]
pub enum Refusal {
    /// A number of the configuration is outside its range.
    BadConfig,
    /// The input has more than 16,777,216 bytes.
    InputTooLarge,
    /// The file is refused.
    Elf(ElfFault),
}
