//! When a look for a head is worth its time.

/// Goes over the bytes of a connection, and tells where a head may end. Only an empty line behind a line that
/// is not empty ends one; empty lines may stand in front of it (RFC 9112, section 2.2).
#[derive(Clone, Copy)]
pub(crate) struct LineScan {
    // A byte that is in no empty line has come.
    begun: bool,
    // The line has no byte yet but carriage returns.
    empty: bool,
}

impl LineScan {
    pub fn new() -> LineScan {
        LineScan {
            begun: false,
            empty: true,
        }
    }

    /// Goes over more bytes. Whether a head may end in them.
    pub fn may_end_in(&mut self, bytes: &[u8]) -> bool {
        let mut ends = false;
        for byte in bytes {
            if *byte == b'\n' {
                ends = ends || self.begun && self.empty;
                self.empty = true;
            } else if *byte != b'\r' {
                self.begun = true;
                self.empty = false;
            }
        }
        ends
    }
}
