//! What a run must write.
/// As many zeros as are compared at once.
static ZEROS: [u8; 4096] = [0; 4096];

/// As many bytes as an output has that isn't large.
const LARGE: usize = 1_000_000;

/// What a run writes.
#[derive(Drop)]
pub enum Output {
    Bytes(Vec<u8>),
    /// So many bytes that are 0.
    Zeros(usize),
}

impl Output {
    /// Whether it has over a million bytes.
    pub fn is_large(&self) -> bool {
        match self {
            Output::Bytes(wanted) => wanted.len() > LARGE,
            Output::Zeros(count) => *count > LARGE,
        }
    }

    /// Whether these bytes are the output.
    pub fn is(&self, bytes: &[u8]) -> bool {
        match self {
            Output::Bytes(wanted) => bytes == wanted.as_slice(),
            Output::Zeros(count) => bytes.len() == *count
                && bytes
                    .chunks(ZEROS.len())
                    .all(|piece| ZEROS.starts_with(piece)),
        }
    }
}
