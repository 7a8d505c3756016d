//! Why an image can't be used.
use std::fs::{self, Metadata};
use std::io::ErrorKind;

/// The bytes of an image.
const IMAGE: u64 = 32768;

/// Says what is wrong with the image at a path.
pub fn hint_image(rt: &HostRuntime, path: Option<&str>) {
    let Some(path) = path else {
        return;
    };
    let _ = match fs::metadata(rt, path) {
        Ok(data) if data.is_file() && data.len() != IMAGE => {
            let bytes = data.len();
            eprintln!(rt; "  hint: {path}: expected {IMAGE} bytes, found {bytes}")
        }
        Ok(data) => {
            let cause = cause_of(&data);
            eprintln!(rt; "  hint: {path}: {cause}")
        }
        Err(e) if e.kind() == ErrorKind::NotFound => {
            eprintln!(rt; "  hint: {path}: no such file; README.md says how a blank image is made")
        }
        Err(_) => eprintln!(rt; "  hint: {path}: it can't be opened"),
    };
}

fn cause_of(data: &Metadata) -> &'static str {
    if data.is_dir() {
        return "a folder, and no file";
    }
    "no leave to read and write it"
}
