//! What the numbers of a header are called.
ghost use Rattle.std.specs.Prelude.{◌≡◌};
ghost use Rattle.file_facts.specs.Names as spec;

/// What a class is called.
pub(crate) fn class_name(class: u8) -> &'static str
    ensures { result.now ≡ spec.class_name class }
{
    match class {
        1 => "ELF32",
        2 => "ELF64",
        _ => "an unknown class",
    }
}

/// What a data encoding is called.
pub(crate) fn data_name(encoding: u8) -> &'static str
    ensures { result.now ≡ spec.data_name encoding }
{
    match encoding {
        1 => "little-endian",
        2 => "big-endian",
        _ => "an unknown data encoding",
    }
}

/// What a type of files is called.
pub(crate) fn type_name(kind: u16) -> &'static str
    ensures { result.now ≡ spec.type_name kind }
{
    match kind {
        1 => "an object file",
        2 => "an executable file",
        3 => "a shared object",
        4 => "a core file",
        _ => "an unknown type",
    }
}

/// What a machine is called.
pub(crate) fn machine_name(machine: u16) -> &'static str
    ensures { result.now ≡ spec.machine_name machine }
{
    match machine {
        3 => "x86",
        8 => "MIPS",
        20 => "PowerPC",
        21 => "64-bit PowerPC",
        22 => "S/390",
        40 => "ARM",
        62 => "x86-64",
        83 => "AVR",
        183 => "AArch64",
        243 => "RISC-V",
        247 => "BPF",
        258 => "LoongArch",
        _ => "another machine",
    }
}
