// The program `insert_check` on cards and key files of every kind. Each case in standard input is a dump, one byte with the length of
// a key file, and its bytes; all cases have one length. tools/make_insert_checks.py makes them, and works out what is to be printed.

#![tactic(auto)]

const DUMP: usize = 2560;

const CASE: usize = 2688;

const CASES: usize = 24;

fn check(case: &[u8; CASE]) {
    let (dump, rest) = case.split_at(DUMP);
    let [length, file @ ..] = rest else {
        return;
    };
    let n = usize::from(*length % 128);
    reason_text::print_check(dump, &file[..n]);
}

fn main() {
    let mut bytes = io::large_buffer();
    io::read_full(0, &mut bytes);
    let (cases, _) = bytes.as_chunks();
    for case in cases.iter().take(CASES) {
        check(case);
    }
}
