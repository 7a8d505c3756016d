//! Where a program reads: the standard input or a file.
use std::cell::Cell;
use std::fs::{self, Files};
use std::io::{self, ErrorKind, Read};

/// What was noticed at the input's front, for a hint where a line is refused.
#[derive(Clone, Copy, Drop)]
pub struct Noticed {
    /// It begins with the three bytes of a byte order mark.
    pub has_mark: bool,
    /// Its first line ends with a carriage return and a line feed.
    pub has_returns: bool,
    /// It begins with `#`.
    pub has_comment: bool,
}

impl Noticed {
    /// Nothing was read yet.
    pub fn nothing() -> Noticed {
        Noticed {
            has_mark: false,
            has_returns: false,
            has_comment: false,
        }
    }

    fn of(front: &[u8]) -> Noticed {
        Noticed {
            has_mark: front.starts_with(b"\xEF\xBB\xBF"),
            has_returns: ends_with_return(front),
            has_comment: front.starts_with(b"#"),
        }
    }

    /// What is unusual about the input, and how it is mended.
    pub fn cure(&self) -> Option<&'static str> {
        if self.has_mark {
            return Some(
                "the input begins with a byte order mark; sed '1s/^\\xEF\\xBB\\xBF//' takes it away",
            );
        }
        if self.has_returns {
            return Some("lines end with CR LF; dos2unix mends that");
        }
        if self.has_comment {
            return Some("there are no comments here; grep -v '^#' takes them away");
        }
        None
    }
}

fn ends_with_return(front: &[u8]) -> bool {
    match front.iter().position(|byte| *byte == b'\n') {
        Some(at) => front[..at].ends_with(b"\r"),
        None => false,
    }
}

/// Why an input isn't opened.
#[derive(Clone, Copy, Drop)]
pub enum Unopened {
    Missing,
    Folder,
    Refused,
    Other,
}

impl Unopened {
    /// The cause in words.
    pub fn text(&self) -> &'static str {
        match self {
            Unopened::Missing => "no such file",
            Unopened::Folder => "a folder, and no file",
            Unopened::Refused => "no leave to read it",
            Unopened::Other => "it can't be opened",
        }
    }
}

/// A reader over the standard input or a file, which notices how its bytes begin.
#[derive(Drop)]
pub struct Input<'a, I: Read + Drop, F: Read + Drop> {
    from: From<I, F>,
    is_begun: bool,
    noticed: &'a Cell<Noticed>,
}

#[derive(Drop)]
enum From<I: Read + Drop, F: Read + Drop> {
    Standard(I),
    File(F),
}

impl<'a, I: Read + Drop, F: Read + Drop> Read for Input<'a, I, F> {
    fn read(&mut self, buf: &mut [u8]) -> io::Result<usize> {
        let answer = match &mut self.from {
            From::Standard(reader) => reader.read(buf),
            From::File(reader) => reader.read(buf),
        };
        if let Ok(n) = &answer
            && !self.is_begun
        {
            self.is_begun = true;
            self.noticed.set(Noticed::of(&buf[..*n]));
        }
        answer
    }
}

/// Opens the file at a path, or the standard input where there is no path or it is `-`.
pub fn open<'a, R: Files + io::Input>(
    rt: &R,
    path: Option<&str>,
    noticed: &'a Cell<Noticed>,
) -> Result<Input<'a, R::Reader, R::File>, Unopened> {
    let from = match path {
        None | Some("-") => From::Standard(rt.reader()),
        Some(path) => From::File(open_file(rt, path)?),
    };
    Ok(Input {
        from,
        is_begun: false,
        noticed,
    })
}

fn open_file<R: Files>(rt: &R, path: &str) -> Result<R::File, Unopened> {
    match fs::metadata(rt, path) {
        Ok(data) if data.is_dir() => return Err(Unopened::Folder),
        Ok(_) => {}
        Err(e) => return Err(cause_of(e.kind())),
    }
    match fs::open(rt, path) {
        Ok(file) => Ok(file),
        Err(e) => Err(cause_of(e.kind())),
    }
}

fn cause_of(kind: ErrorKind) -> Unopened {
    match kind {
        ErrorKind::NotFound => Unopened::Missing,
        ErrorKind::PermissionDenied => Unopened::Refused,
        _ => Unopened::Other,
    }
}
