//! What a word is that is no instruction of RV32IM.
ghost use Rattle.std.specs.Prelude.{◌≡◌};
ghost use Rattle.explanations.specs.Words as spec;

/// What a word is: the instruction, if an extension of the ISA has it.
pub(crate) fn word_name(word: u32) -> &'static str
    ensures { result.now ≡ spec.word_name word }
{
    if word == 0 {
        "no instruction: zeros"
    } else if word % 4 != 3 {
        "a compressed instruction, of the C extension"
    } else {
        long_name(word % 128, word / 4096 % 8, word / 134_217_728 % 32)
    }
}

/// What a word of these fields is.
fn long_name(opcode: u32, funct3: u32, funct5: u32) -> &'static str
    ensures { result.now ≡ spec.long_name opcode funct3 funct5 }
{
    match opcode {
        0x2F => {
            if funct3 == 2 {
                atomic_name(funct5)
            } else {
                "no instruction of RV32IM"
            }
        }
        0x73 => system_name(funct3),
        0x07 => float_name(funct3),
        0x27 => float_name(funct3),
        0x53 => "an instruction of the F or D extension",
        0x57 => "an instruction of the V extension",
        0x0F => "fence.i, of the Zifencei extension",
        _ => "no instruction of RV32IM",
    }
}

/// What an atomic instruction on words is.
fn atomic_name(funct5: u32) -> &'static str
    ensures { result.now ≡ spec.atomic_name funct5 }
{
    match funct5 {
        0 => "amoadd.w, of the A extension",
        1 => "amoswap.w, of the A extension",
        2 => "lr.w, of the A extension",
        3 => "sc.w, of the A extension",
        4 => "amoxor.w, of the A extension",
        8 => "amoor.w, of the A extension",
        12 => "amoand.w, of the A extension",
        16 => "amomin.w, of the A extension",
        20 => "amomax.w, of the A extension",
        24 => "amominu.w, of the A extension",
        28 => "amomaxu.w, of the A extension",
        _ => "no instruction of RV32IM",
    }
}

/// What an instruction of the system is.
fn system_name(funct3: u32) -> &'static str
    ensures { result.now ≡ spec.system_name funct3 }
{
    match funct3 {
        0 => "an instruction of the privileged architecture",
        1 => "csrrw, of the Zicsr extension",
        2 => "csrrs, of the Zicsr extension",
        3 => "csrrc, of the Zicsr extension",
        5 => "csrrwi, of the Zicsr extension",
        6 => "csrrsi, of the Zicsr extension",
        7 => "csrrci, of the Zicsr extension",
        _ => "no instruction of RV32IM",
    }
}

/// What a load or a store of floats is.
fn float_name(funct3: u32) -> &'static str
    ensures { result.now ≡ spec.float_name funct3 }
{
    match funct3 {
        2 => "a load or store of the F extension",
        3 => "a load or store of the D extension",
        _ => "an instruction of the V extension",
    }
}
