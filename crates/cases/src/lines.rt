// A file, and its lines.
ghost use Rattle.std.specs.Prelude.{◌≡◌, ◌≤◌, length};
ghost use Rattle.io.specs.Counts.{IsPrefixLen};
ghost use Rattle.std.specs.Iterator.{YieldsFirstRef, item_count};
ghost use Rattle.cases.specs.Lines.{line_end_lem, lines_of};

use std::io::{Eprint, Error, ErrorKind, Read};
use std::rt::Files;
use std::{fs, str};

const STDERR_FILENO: i32 = 2;

// Reads the file into text and answers how many bytes it put there; of a file that cannot be opened, 0, and says why.
pub fn read<R: Files + Eprint>(rt: &R, path: &[u8], text: &mut [u8]) -> usize
    ensures { IsPrefixLen result text.new }
{
    match open_read(rt, path) {
        Ok(mut file) => read_full(&mut file, text),
        Err(error) => {
            fail(rt, path, &error);
            0
        }
    }
}

// A name that is not UTF-8 names no file that can be opened.
fn open_read<R: Files>(rt: &R, path: &[u8]) -> Result<R::File, Error> {
    let name = str::from_utf8(path).map_err(|_| ErrorKind::InvalidFilename)?;
    fs::open(rt, name)
}

// A line on standard error: the name, by its bytes, which need not be text as what Eprint takes, and why.
fn fail(rt: &impl Eprint, path: &[u8], error: &Error) {
    io::write_all(STDERR_FILENO, path);
    let _ = eprintln!(rt; ": {error}");
}

// Reads until text is full, the input ends or a read fails, and answers how many bytes it put at the start of text.
pub fn read_full<R: Read>(input: &mut R, text: &mut [u8]) -> usize
    ensures { IsPrefixLen result text.new }
{
    let mut done = 0;
    while let Ok(n @ 1..) = input.read(&mut text[done..]) {
        done += n;
    }
    done
}

// The place of the first line feed from `at` on, or the end.
pub fn line_end(text: &[u8], at: usize) -> usize
    requires { at ≤ length text.now }
    ensures { (result ≡ line_end_lem text.now at) × (at ≤ result) × (result ≤ length text.now) }
{
    match text[at..].iter().position(|b| *b == b'\n') {
        Some(n) => at + n,
        None => text.len(),
    }
}

// The lines of a text, the last with or without its line feed.
#[derive(Drop)]
pub struct Lines<'a>(pub &'a [u8]);

impl<'a> Iterator for Lines<'a> {
    type Item = &'a [u8];

    ghost next_gives = { YieldsFirstRef (λ s. lines_of s.0.now) };

    ghost remaining = { item_count (λ s. lines_of s.0.now) };

    fn next(&mut self) -> Option<&'a [u8]> {
        let text = self.0;
        if text.is_empty() {
            return None;
        }
        let end = line_end(text, 0);
        self.0 = &text[text.len().min(end + 1)..];
        Some(&text[..end])
    }
}
