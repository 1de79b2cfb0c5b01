// What the cleaning program writes and prints for the bytes that it reads: one LineString or MultiLineString in well-known binary.
#![tactic(auto)]

mod either;
mod text;

ghost use Rattle.std.specs.Prelude.{◌≡◌, ◌≤◌, length, take, replicate};
ghost use Rattle.refusals.specs.Refusals.{gives};
ghost use Rattle.report.specs.Pages.{page, Puts};
ghost use Rattle.report.specs.Lines.{refused_line};
ghost use Rattle.wkb.specs.Multi.{found_multi};
ghost use Rattle.members.specs.Held.{points_of, chains_of};
ghost use Rattle.clean_bytes.specs.Printed.{chains_in, CleansAs};
ghost use Rattle.clean_bytes.specs.Inside.{NoFile, PutsAs, Parts, BytesAsk, Fits, WroteText};

use clean::Cleaned;
use wkb::MultiRead;

// Where the file and the text end. A file of 0 bytes is none.
#[derive(Clone, Copy)]
pub struct Ends {
    pub bytes: usize,
    pub text: usize,
}

// A refusal: its line, and no file.
fn refuse(number: u32, text: &mut [u8]) -> Ends
    ensures { NoFile number text.old result text.new }
{
    Ends {
        bytes: 0,
        text: report::refused_line(number, text, 0),
    }
}

// A refusal that leaves zero throughout the slice of the file.
fn refuse_cleared(number: u32, file: &mut [u8], text: &mut [u8]) -> Ends
    ensures { NoFile number text.old result text.new × (file.new ≡ replicate (length file.old) 0) }
{
    report::clear(file);
    refuse(number, text)
}

// Writes what is kept: the first of x, y and lengths. Answers how many bytes.
fn write_kept(
    x: &[u64],
    y: &[u64],
    lengths: &[u32],
    points: usize,
    members: usize,
    file: &mut [u8],
) -> usize
    requires { Parts x.now y.now lengths.now points members × Fits (take points x.now) (take points y.now) (take members lengths.now) file.old }
    ensures { let pss = chains_of (take members lengths.now) (points_of (take points x.now) (take points y.now)) in
        WroteText pss file.old result file.new }
{
    let written = members::write::write_multi_line_string(
        &x[..points],
        &y[..points],
        &lengths[..members],
        file,
    );
    match written {
        Ok(n) => n,
        Err(_) => 0,
    }
}

// Cleans members, writes what is kept, and prints a line for each dropped point.
fn put_found(x: &[u64], y: &[u64], lengths: &[u32], file: &mut [u8], text: &mut [u8]) -> Ends
    requires { BytesAsk x.now y.now lengths.now file.old }
    ensures { let pss = chains_of lengths.now (points_of x.now y.now) in
        PutsAs (gives pss) file.old text.old result file.new text.new }
{
    let mut kept_x = [0u64; 4096];
    let mut kept_y = [0u64; 4096];
    let mut kept_lengths = [0u32; 2048];
    let mut reasons = [0u32; 4096];
    let answer = clean::clean(
        x,
        y,
        lengths,
        &mut kept_x,
        &mut kept_y,
        &mut kept_lengths,
        &mut reasons,
    );
    match answer {
        Err(r) => refuse(r.number, text),
        Ok(Cleaned { points, members }) => {
            let bytes = write_kept(&kept_x, &kept_y, &kept_lengths, points, members, file);
            let end = text::put_members(lengths, &reasons, text);
            Ends { bytes, text: end }
        },
    }
}

// The first of x, y and lengths.
fn put_part(
    x: &[u64],
    y: &[u64],
    lengths: &[u32],
    points: usize,
    members: usize,
    file: &mut [u8],
    text: &mut [u8],
) -> Ends
    requires { Parts x.now y.now lengths.now points members × BytesAsk (take points x.now) (take points y.now) (take members lengths.now) file.old }
    ensures { let pss = chains_of (take members lengths.now) (points_of (take points x.now) (take points y.now)) in
        PutsAs (gives pss) file.old text.old result file.new text.new }
{
    put_found(&x[..points], &y[..points], &lengths[..members], file, text)
}

// One MultiLineString.
fn put_multi(bytes: &[u8], file: &mut [u8], text: &mut [u8]) -> Ends
    requires { (length bytes.now ≤ 65545) × (65545 ≤ length file.old) }
    ensures { PutsAs (found_multi bytes.now) file.old text.old result file.new text.new }
{
    let mut x = [0u64; 4096];
    let mut y = [0u64; 4096];
    let mut lengths = [0u32; 4096];
    let read = wkb::members::read_multi_line_string(bytes, &mut x, &mut y, &mut lengths);
    match read {
        Err(r) => refuse(r.number, text),
        Ok(MultiRead { points, members }) => {
            put_part(&x, &y, &lengths, points, members, file, text)
        },
    }
}

// The first n bytes of a slice.
fn put_first(s: &[u8], n: usize, file: &mut [u8], text: &mut [u8]) -> Ends
    requires { (n ≤ length s.now) × (n ≤ 65545) × (65545 ≤ length file.old) }
    ensures { PutsAs (found_multi (take n s.now)) file.old text.old result file.new text.new }
{
    put_multi(&s[..n], file, text)
}

// The file and the text of the bytes of an input. What stands beyond the text stays.
fn put_input(bytes: &[u8], file: &mut [u8], text: &mut [u8]) -> Ends
    ensures { PutsAs (chains_in (length file.old) bytes.now) file.old text.old result file.new text.new }
{
    if file.len() < 65545 {
        return refuse(3, text);
    }
    if bytes.len() > 65536 {
        return refuse_cleared(5, file, text);
    }
    let mut whole = [0u8; 65545];
    let n = either::widen(bytes, &mut whole);
    put_first(&whole, n, file, text)
}

// Writes the file and the text of the bytes of an input: the kept pieces as a MultiLineString, and a line for each dropped point, as far as there is
// room; zero beyond both. A refusal writes its line, and no file: 3 where the slice for the file has fewer than 65,545 bytes, 5 for an input of more
// than 65,536, 11. Of the file's slice 5 leaves zero throughout, and the others change nothing.
pub fn clean_bytes(bytes: &[u8], file: &mut [u8], text: &mut [u8]) -> Ends
    ensures { CleansAs (chains_in (length file.old) bytes.now) file.old text.old result file.new text.new }
{
    let ends = put_input(bytes, file, text);
    let end = ends.text;
    report::clear(&mut text[end..]);
    ends
}
