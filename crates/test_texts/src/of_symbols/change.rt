//! Changes of a file that was written field by field.
/// A field that is written over.
#[derive(Clone, Copy)]
pub enum Change {
    /// A field of 2 bytes at an offset of the file.
    Half(usize, u16),
    /// A field of 4 bytes at an offset of the file.
    Word(usize, u32),
    /// A field of 4 bytes at an offset of the symbol table's header, the last but one.
    OfTable(usize, u32),
    /// A field of 4 bytes at an offset of the string table's header, the last one.
    OfStrings(usize, u32),
}

/// Makes a change.
pub fn make_change(file: &mut [u8], change: Change) {
    let size = file.len();
    match change {
        Change::Half(offset, half) => put(file, offset, &half.to_le_bytes()),
        Change::Word(offset, word) => put(file, offset, &word.to_le_bytes()),
        Change::OfTable(offset, word) => {
            put(
                file,
                size.saturating_sub(80).saturating_add(offset),
                &word.to_le_bytes(),
            );
        }
        Change::OfStrings(offset, word) => {
            put(
                file,
                size.saturating_sub(40).saturating_add(offset),
                &word.to_le_bytes(),
            );
        }
    }
}

/// Writes bytes from an offset on.
fn put(file: &mut [u8], offset: usize, bytes: &[u8]) {
    for (step, byte) in bytes.iter().enumerate() {
        if let Some(target) = file.get_mut(offset.saturating_add(step)) {
            *target = *byte;
        }
    }
}
