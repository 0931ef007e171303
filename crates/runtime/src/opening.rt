//! Opens a run: looks at the configuration, the input's size and the file, in this order.
ghost use Rattle.runtime.specs.Run.{Opens};

use crate::open_fault::OpenFault;
use crate::refusal::Refusal;
use abi::limits::MAX_INPUT;
use elf32_reader::{ElfFault, Image, read};
use shuffled_phases::Config;
use std::alloc::Global;

/// The image of a file, where the configuration, the input and the file are in order, looked at in this turn.
pub fn open_image(
    alloc: Global,
    elf: &[u8],
    input: &[u8],
    config: &Config,
) -> Result<Image, OpenFault>
    ensures { Opens elf.now input.now config.now result }
{
    if !config.is_valid() {
        return Err(OpenFault::Refused(Refusal::BadConfig));
    }
    if input.len() > MAX_INPUT {
        return Err(OpenFault::Refused(Refusal::InputTooLarge));
    }
    match read(alloc, elf) {
        Ok(image) => Ok(image),
        Err(ElfFault::OutOfMemory) => Err(OpenFault::OutOfMemory),
        Err(fault) => Err(OpenFault::Refused(Refusal::Elf(fault))),
    }
}
