// The cleaning program: one LineString or MultiLineString in well-known binary from standard input; what is kept of it to the file `clean.wkb`, and a
// line for each dropped point to standard output. The file is written beside and renamed, so that it is there whole, or an older one as it was.
// What fails is said on standard error, and then nothing is printed; but where the print itself fails, the file is there.
#![tactic(auto)]

use std::fs::{File, Files, OpenOptions};
use std::io::{Cursor, Write};
use std::{io, str};

// Says on standard error what failed, and why in the system's words. Where standard error takes no line, there is no place to say so.
fn fail<R: Eprint>(rt: &R, what: &str, error: io::Error) {
    let mut cursor = Cursor::new([0u8; 128]);
    let _ = write!(cursor, "{error}");
    let text = cursor.into_inner();
    let said = str::from_utf8(&text).unwrap_or("");
    let why = before(before(said, "\0"), " (os error ");
    let _ = eprintln!(rt; "{what}: {why}");
}

// A text as far as a mark, or all of it where the mark isn't in it.
fn before<'a>(text: &'a str, mark: &str) -> &'a str {
    match text.split_once(mark) {
        Some((front, _)) => front,
        None => text,
    }
}

// All bytes to a new file, which is closed. What failed last is told.
fn fill(mut file: File, bytes: &[u8]) -> io::Result<()> {
    let written = file.write_all(bytes);
    let stored = file.sync_all();
    stored.and(written)
}

// Puts the file in place. A file that stands at the name beside is another run's, and is left alone.
fn put_file(rt: &HostRuntime, bytes: &[u8]) -> bool {
    let mut how = OpenOptions::new();
    how.write(true).create_new(true);
    let file = match rt.open_file(&how, "clean.wkb.new") {
        Ok(file) => file,
        Err(e) => {
            fail(rt, "morelturret: clean.wkb.new can't be made", e);
            return false;
        }
    };
    if let Err(e) = fill(file, bytes) {
        fail(rt, "morelturret: clean.wkb.new can't be written", e);
        let _ = rt.remove_file("clean.wkb.new");
        return false;
    }
    if let Err(e) = rt.rename("clean.wkb.new", "clean.wkb") {
        fail(rt, "morelturret: clean.wkb can't be put in place", e);
        let _ = rt.remove_file("clean.wkb.new");
        return false;
    }
    true
}

fn print<R: Print + Eprint>(rt: &R, text: &[u8]) {
    if rt.write_all(text).is_err() {
        let _ = eprintln!(rt; "morelturret: standard output can't be written");
    }
}

// A file of 0 bytes is none.
fn keep(rt: &HostRuntime, file: &[u8]) -> bool {
    if file.len() == 0 {
        return true;
    }
    put_file(rt, file)
}

// The file, and the text once it is in place.
fn deliver(rt: &HostRuntime, file: &[u8], text: &[u8]) {
    if keep(rt, file) {
        print(rt, text);
    }
}

// Cleans the bytes of the input. Every text has room (`text_fits` of `clean_bytes`).
fn respond(rt: &HostRuntime, bytes: &[u8]) {
    let mut file = [0u8; 65545];
    let mut text = [0u8; 201000];
    let ends = clean_bytes::clean_bytes(bytes, &mut file, &mut text);
    deliver(rt, &file[..ends.bytes], &text[..ends.text]);
}

// An input of more than 65,536 bytes is refused by its 65,537th: the rest is not read.
fn main(rt: HostRuntime) {
    let mut bytes = [0u8; 65537];
    let read = input::read_input(&mut rt.stdin(), &mut bytes);
    match read {
        Some(n) => respond(&rt, &bytes[..n]),
        None => {
            let _ = eprintln!(rt; "morelturret: standard input can't be read");
        }
    }
}
