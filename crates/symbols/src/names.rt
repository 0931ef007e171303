//! The names in a string table.
ghost use Rattle.std.specs.Prelude.{◌≡◌, ◌+◌, ◌≤◌, ◌==◌, IfSome, length, option_map, position, slice_range};
ghost use Rattle.std.specs.List.{list_all};
ghost use Rattle.symbols.specs.Names as spec;

/// As many bytes has a name at most.
const NAME_LIMIT: usize = 255;

/// The size of the name at an offset, none if there is no name.
#[tactic(auto, unfolding(crate::specs::Names::name_at))]
pub(crate) fn name_size(strings: &[u8], offset: u32) -> Option<u8>
    ensures name { option_map (λ size. slice_range strings.now offset (offset + size)) result ≡ spec.name_at strings.now offset }
    ensures within { IfSome result (λ size. offset + size ≤ length strings.now) }
{
    let rest = strings.get(offset as usize..)?;
    let size = first_zero(&rest[..rest.len().min(NAME_LIMIT + 1)])?;
    if is_name(&rest[..size]) {
        Some(size as u8)
    } else {
        None
    }
}

/// Where the first zero is.
fn first_zero(bytes: &[u8]) -> Option<usize>
    ensures { result ≡ position (λ byte. byte == 0) bytes.now }
{
    bytes.iter().position(|byte| *byte == 0)
}

/// Whether these bytes are a name.
fn is_name(name: &[u8]) -> bool
    ensures { result ≡ spec.is_name name.now }
{
    !name.is_empty() && has_name_bytes(name)
}

/// Whether a name may have each of these bytes.
fn has_name_bytes(bytes: &[u8]) -> bool
    ensures { result ≡ list_all spec.is_name_byte bytes.now }
{
    bytes.iter().all(|byte| is_name_byte(*byte))
}

/// Whether a name may have a byte: printable ASCII, neither a space nor `=`.
fn is_name_byte(byte: u8) -> bool
    ensures { result ≡ spec.is_name_byte byte }
{
    byte > b' ' && byte < 0x7F && byte != b'='
}
