ghost use Rattle.std.specs.Prelude.{◌≤◌, length};

/// The words of a line: what stands between blanks, up to a `#` that begins a comment.
#[derive(Clone, Copy, Drop)]
pub struct Words<'a> {
    rest: &'a [u8],
}

fn is_blank(byte: u8) -> bool {
    byte == b' ' || byte == b'\t'
}

/// How many bytes from the front on aren't blank, if `blank` is false, or are, if it is true.
fn front_len(bytes: &[u8], blank: bool) -> usize
    ensures { result ≤ length bytes.now }
{
    bytes
        .iter()
        .position(|byte| is_blank(*byte) != blank)
        .unwrap_or(bytes.len())
}

impl<'a> Words<'a> {
    /// The words of a line.
    pub fn of(line: &'a [u8]) -> Words<'a> {
        let end = line
            .iter()
            .position(|byte| *byte == b'#')
            .unwrap_or(line.len());
        Words { rest: &line[..end] }
    }

    /// The next word.
    pub fn next(&mut self) -> Option<&'a [u8]> {
        let blanks = front_len(self.rest, true);
        let behind = &self.rest[blanks..];
        let (word, rest) = behind.split_at(front_len(behind, false));
        self.rest = rest;
        if word.is_empty() { None } else { Some(word) }
    }
}
