// What the programs do: one LineString in well-known binary from standard input, which the caller hands as a reader; what document 01 says of it in a
// plan, to standard output.
// A read or a write that fails is said on standard error, and so is the value of a refusal. A report is whole if its last line is that of the visit, or a
// refusal.
#![tactic(auto)]

use build::Plan;
use std::io::Read;

// Says on standard error the value of the refusal that is due, if one is. It reads and builds for itself: the report has no place for a value.
// Where standard error takes no line, there is no place to say so.
fn tell_value<R: Eprint>(rt: &R, bytes: &[u8], plan: Plan) {
    let due = why::refusal_of(bytes, plan);
    if due.number == 0 {
        return;
    }
    let _ = eprintln!(rt; "value {}", due.value);
}

// Prints what there is to print for the bytes of the input. Every text has room (`printed_fits` of `chain`).
fn print<R: Print + Eprint>(rt: &R, bytes: &[u8], plan: Plan) {
    let mut out = [0u8; 281000];
    let end = chain::print_chain(bytes, plan, &mut out);
    if rt.write_all(&out[..end]).is_err() {
        let _ = eprintln!(rt; "morelturret: standard output can't be written");
    }
}

fn respond<R: Print + Eprint>(rt: &R, bytes: &[u8], plan: Plan) {
    tell_value(rt, bytes, plan);
    print(rt, bytes, plan);
}

// A valid input has at most 16,393 bytes. One byte more is enough to refuse a longer one at the right byte: that is the first of a field among
// the first 9 bytes, or what follows the last of at most 1,024 points (`first_bytes` of `chain`). The rest is not read.
pub fn run<I: Read, R: Print + Eprint>(reader: &mut I, rt: &R, plan: Plan) {
    let mut bytes = [0u8; 16394];
    let read = input::read_input(reader, &mut bytes);
    match read {
        Some(n) => respond(rt, &bytes[..n], plan),
        None => {
            let _ = eprintln!(rt; "morelturret: standard input can't be read");
        }
    }
}
