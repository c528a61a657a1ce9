// Replays a recorded sample of the original Rust's results: the files stdin and stdout beside src/.
// `cargo run -p compare -- --record IN OUT`, in rust/, recorded both from the original's own functions and
// the validation questions of docs/REQUIREMENTS.md, independently of this library.
//
// An input line is `PATH OLD NEW`, separated by single spaces; a missing text is empty. Its result is one
// line of thirteen fields, separated by single spaces: a refusal as `!` and its number, a test as `yes` or
// `no`, a path as its text, the empty path as `-`.
#![tactic(auto)]

use refusal::Refusal;
use std::io::Write;

// The length of a result line that is enough: six texts of at most 255 bytes, at most 128 lengths, and a few
// short fields.
const LINE: usize = 4096;

// A result line. Not an `io::Write`: `write_all` and `write!` of short texts take 1.5 to 2 times as long.
#[derive(Drop)]
struct Line {
    bytes: [u8; LINE],
    len: usize,
}

impl Line {
    // Appends a text. All results fit (see LINE); a text that did not would be left out, and the line be full.
    fn put(&mut self, text: &[u8]) {
        text::write_at(text, self.len, &mut self.bytes);
        self.len = self.len.saturating_add(text.len()).min(LINE);
    }

    // Appends a number in decimal.
    fn put_number(&mut self, n: usize) {
        let mut digits = [0u8; 20];
        let mut rest = &mut digits[..];
        let _ = write!(rest, "{n}");
        let k = 20usize.saturating_sub(rest.len());
        self.put(&digits[..k]);
    }

    // Appends a refusal as `!` and its number.
    fn put_refusal(&mut self, x: Refusal) {
        self.put(b"!");
        self.put_number(refusal::number_of(x));
    }

    // Appends the result of a validation.
    fn put_validation(&mut self, q: Result<(), Refusal>) {
        match q {
            Ok(()) => self.put(b"ok"),
            Err(x) => self.put_refusal(x),
        }
    }

    // Appends the result of a test.
    fn put_test(&mut self, t: Result<bool, Refusal>) {
        self.put(b" ");
        match t {
            Ok(true) => self.put(b"yes"),
            Ok(false) => self.put(b"no"),
            Err(x) => self.put_refusal(x),
        }
    }

    // Appends a count.
    fn put_count(&mut self, n: Result<path_prefix::Elements, Refusal>) {
        self.put(b" ");
        match n {
            Ok(e) => self.put_number(e.0),
            Err(x) => self.put_refusal(x),
        }
    }

    // Appends the path that a call wrote to the beginning of the buffer. No call returns a length beyond the
    // buffer.
    fn put_path(&mut self, r: Result<usize, Refusal>, memory: &[u8]) {
        self.put(b" ");
        match r {
            Ok(0) => self.put(b"-"),
            Ok(n) => self.put(memory.get(..n).unwrap_or(b"")),
            Err(x) => self.put_refusal(x),
        }
    }

    // Appends the path that a call makes, in a buffer that is long enough for any path.
    fn put_made<F: FnOnce(&mut [u8]) -> Result<usize, Refusal>>(&mut self, make: F)
        requires { F.IsAlwaysCallable make }
    {
        let mut memory = [0u8; 255];
        let r = make(&mut memory);
        self.put_path(r, &memory);
    }

    // Appends the prim path of a property, and the property's name: the text after the dot that follows the prim
    // path.
    fn put_split(&mut self, path: &[u8]) {
        let mut memory = [0u8; 255];
        let r = path_derive::split_property(path, &mut memory);
        self.put_path(r, &memory);
        self.put(b" ");
        match r {
            Ok(n) => {
                if let Some([_, name @ ..]) = path.get(n..) {
                    self.put(name);
                }
            }
            Err(x) => self.put_refusal(x),
        }
    }

    // Appends the lengths in decimal, separated by commas.
    fn put_lengths(&mut self, lengths: &[usize]) {
        let mut separator: &[u8] = b"";
        for n in lengths {
            self.put(separator);
            self.put_number(*n);
            separator = b",";
        }
    }

    // Appends the lengths of the path and its ancestors, at most 128.
    fn put_ancestors(&mut self, path: &[u8]) {
        let mut lengths = [0usize; 128];
        self.put(b" ");
        match path_derive::ancestors(path, &mut lengths) {
            Ok(n) => self.put_lengths(lengths.get(..n).unwrap_or(&[])),
            Err(x) => self.put_refusal(x),
        }
    }

    // Appends the results of the calls that write no path.
    fn put_tests(&mut self, path: &[u8], old: &[u8]) {
        self.put_validation(path::new(path));
        self.put_test(path::is_end(path));
        self.put_test(path::has_variant_selection(path));
        self.put_count(path::element_count(path));
        self.put_count(path::prim_element_count(path));
        self.put_test(path::has_prefix(path, old));
    }

    // Appends all results.
    fn put_answers(&mut self, path: &[u8], old: &[u8], new: &[u8]) {
        self.put_tests(path, old);
        self.put_made(|out| path_derive::replace_prefix(path, old, new, out));
        self.put_made(|out| path_derive::parent(path, out));
        self.put_made(|out| path_derive::prim_path(path, out));
        self.put_split(path);
        self.put_made(|out| path_derive::strip_variant_selections(path, out));
        self.put_ancestors(path);
        self.put(b"\n");
    }
}

// Processes an input line and returns whether the results were written; if not, reports it.
fn answer<W: Write, E: Write>(question: &[u8], to: &mut W, errors: &mut E) -> bool {
    let mut parts = question.splitn(3, |b| *b == b' ');
    let path = parts.next().unwrap_or(b"");
    let old = parts.next().unwrap_or(b"");
    let new = parts.next().unwrap_or(b"");
    let mut line = Line {
        bytes: [0u8; LINE],
        len: 0,
    };
    line.put_answers(path, old, new);
    match stdio::write_all(to, line.bytes.get(..line.len).unwrap_or(b"")).failure {
        Some(e) => {
            stdio::report(errors, b"replay: standard output: ", &e);
            false
        }
        None => true,
    }
}

// Processes the input lines; the last may lack its newline.
fn answer_all<W: Write, E: Write>(input: &[u8], to: &mut W, errors: &mut E) {
    for line in input.split_inclusive(|b| *b == b'\n') {
        let question = line.strip_suffix(b"\n").unwrap_or(line);
        if !answer(question, to, errors) {
            return;
        }
    }
}

// Reads the whole input, which must be shorter than 262,144 bytes; the sample has fewer.
fn main(rt: HostRuntime) {
    let mut input = [0u8; 262144];
    let mut errors = rt.stderr();
    match stdio::read_full(&mut rt.stdin(), &mut input) {
        Ok(n) => {
            if n < 262144 {
                answer_all(&input[..n], &mut rt.stdout(), &mut errors);
            } else {
                stdio::write_all(&mut errors, b"replay: the input is too long\n");
            }
        }
        Err(e) => stdio::report(&mut errors, b"replay: standard input: ", &e),
    }
}
