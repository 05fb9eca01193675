// Texts, numbers and the names of outcomes to standard output; where it cannot be written, that is told on standard error.
#![tactic(auto)]

// The streams that are written: standard output, and standard error.
const STDOUT_FILENO: i32 = 1;

const STDERR_FILENO: i32 = 2;

// The programs that write.
#[derive(Clone, Copy)]
pub enum Program {
    Runner,
    Boot,
}

// Tells that a program could not write.
fn tell(program: Program, written: bool) {
    if written {
        return;
    }
    let name: &[u8] = match program {
        Program::Runner => b"runner",
        Program::Boot => b"boot",
    };
    io::write_all(STDERR_FILENO, name);
    io::write_all(STDERR_FILENO, b": standard output cannot be written\n");
}

// Writes a text.
pub fn text(program: Program, bytes: &[u8]) {
    tell(program, io::write_all(STDOUT_FILENO, bytes));
}

// Writes the first `to` bytes of a text.
pub fn front(program: Program, bytes: &[u8], to: usize) {
    if let Some(written) = bytes.get(..to) {
        text(program, written);
    }
}

// Writes a number, in decimal digits.
fn number(program: Program, n: usize) {
    tell(program, io::print_decimal(STDOUT_FILENO, n as u64));
}

// Writes the name of an outcome's number.
pub fn name(program: Program, n: usize) {
    let mut bytes = [0u8; 16];
    let to = text_names::name(&mut bytes, 0, n);
    front(program, &bytes, to);
}

// Writes a text, at each `%` the next of the four numbers; a fifth begins again with the first.
pub fn form(program: Program, bytes: &[u8], numbers: [usize; 4]) {
    for (n, part) in bytes.split(|b| *b == b'%').enumerate() {
        if n > 0 {
            number(program, numbers[(n - 1) % 4]);
        }
        text(program, part);
    }
}
