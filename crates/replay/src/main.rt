// The program: recorded questions and answers of the Rust from standard input; how many of each kind the port answers alike, to standard output.
// The last line is `all agree`, or says at which word the first record begins that does not.
#![tactic(auto)]

ghost use Rattle.std.specs.Prelude.{◌≡◌, ◌≤◌, length};

use records::words;

// A name and a number. Where standard output takes no line, there is no place to say so.
fn say<R: Print>(rt: &R, name: &[u8], n: usize) {
    let _ = rt.write_all(name);
    let _ = println!(rt; " {n}");
}

// How many records of a kind agree. Answers how many words they have.
fn say_kind<R: Print>(rt: &R, name: &[u8], file: &[u64], kind: u64) -> usize
    ensures { result ≤ length file.now }
{
    let tally = agreed::agreeing(file, kind);
    say(rt, name, tally.records);
    tally.words
}

// Where the line ends that begins at a place.
fn line_end(text: &[u8], from: usize) -> usize
    requires { from ≤ length text.now }
    ensures { (from ≤ result) × (result ≤ length text.now) }
{
    let mut to = from;
    while to < text.len() {
        if text[to] == 10 {
            return to;
        }
        to += 1;
    }
    to
}

// The kinds in order, each by the line that names it. Answers how many words the records that agree have.
fn say_kinds<R: Print>(rt: &R, names: &[u8], file: &[u64]) -> usize
    requires { (length names.now ≤ 196608) × (length file.now ≤ 196608) }
{
    let mut agree = 0;
    let mut kind = 1;
    let mut from = 0;
    while from < names.len() {
        let to = line_end(names, from);
        agree += say_kind(rt, &names[from..to], file, kind);
        kind += 1;
        from = to + 1;
    }
    agree
}

// Whether every word of the file is one of a record that agrees.
fn replay<R: Print>(rt: &R, file: &[u64])
    requires { length file.now ≤ 196608 }
{
    let names =
        b"numbers\nwalks\nbuilds\nbatches\ntests\npoints owned\noverlaps owned\nowners\nsnaps\nstrategies\nowners of many\n";
    let agree = say_kinds(rt, names, file);
    if agree == file.len() {
        let _ = println!(rt; "all agree");
        return;
    }
    say(rt, b"differs at word", agreed::agree_to(file));
}

fn room_for_bytes() -> [u8; 1572864]
    ensures { 1572864 ≡ length result }
{
    [0; 1572864]
}

fn room_for_words() -> [u64; 196608]
    ensures { 196608 ≡ length result }
{
    [0; 196608]
}

// A file that fills all the room may go on, and is not compared.
fn main(rt: HostRuntime) {
    let mut bytes = room_for_bytes();
    let n = input::read_full(&mut rt.stdin(), &mut bytes);
    if n == 1572864 {
        let _ = println!(rt; "too long");
        return;
    }
    if n % 8 != 0 {
        let _ = println!(rt; "not whole words");
        return;
    }
    let mut file = room_for_words();
    words::words_of(&bytes[..n], &mut file);
    replay(&rt, &file[..n / 8]);
}
