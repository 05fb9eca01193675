// The input's lines, and where the run stands in them and in the answers: 65,536 bytes of input, 262,144 of answers.
#![tactic(auto)]

ghost use Rattle.std.specs.Prelude.{◌+◌, ◌<◌};

use run_commands::Command;
use std::io::Read;
use text_prints::Program;

// What the input's bytes are: lines, the rest of a line too long, which is passed over, or the last line, once the input has ended.
#[derive(Clone, Copy)]
enum State {
    Lines,
    Rest,
    Last,
}

// The input's bytes, and where the run stands: the next line's place there, how many bytes there are, what they are, the lines counted, and the answers' bytes not yet written.
#[derive(Drop)]
pub struct Lines {
    buf: [u8; 65536],
    from: usize,
    have: usize,
    state: State,
    number: u64,
    pub at: usize,
}

// Room for an answer more, of at most 198,000 bytes: the answers are written out where fewer are left.
pub fn room(out: &[u8; 262144], at: usize) -> usize {
    if at > 60000 {
        text_prints::front(Program::Runner, out, at);
        return 0;
    }
    at
}

// What there is to say where there is no input at all.
fn usage() {
    text_prints::text(
        Program::Runner,
        b"runner: a frame allocator's calls, one a line, on one store of up to 200 trees.\nUse: runner < LINES > ANSWERS; lines: frames, default, class, pair, start, get, put, drain, stats, look.\nEvery line and answer is described, with examples, in docs/LINES.md.\n",
    );
}

// The command of the line from `from` to `to`.
fn command_of(buf: &[u8], from: usize, to: usize) -> Command {
    match buf.get(from..to) {
        Some(line) => run_parses::parse(line),
        None => Command::Wrong,
    }
}

// A line too long for the input's buffer is no command, unless it begins with '#'.
fn say_wrong(buf: &[u8], number: u64, out: &mut [u8]) {
    if buf.is_empty() || buf.starts_with(b"#") {
        return;
    }
    let at = run_answers::wrong(out, 0, number);
    text_prints::front(Program::Runner, out, at);
}

// One read into the input from `left` on: how many bytes came, 0 where it failed.
fn read(rt: &impl Input, buf: &mut [u8], left: usize) -> usize {
    if left >= buf.len() {
        return 0;
    }
    rt.reader().read(&mut buf[left..]).unwrap_or(0)
}

impl Lines {
    // At the beginning nothing is read.
    pub fn new() -> Self {
        Lines {
            buf: [0; 65536],
            from: 0,
            have: 0,
            state: State::Lines,
            number: 0,
            at: 0,
        }
    }

    // The end of the next line, where it has one yet.
    pub fn end(&self) -> Option<usize> {
        run_lines::line_end(self.buf.get(..self.have)?, self.from)
    }

    // The lines counted with this one; the rest of a line that is passed over is none.
    pub fn counted(&self) -> u64 {
        match self.state {
            State::Rest => self.number,
            _ => self.number.wrapping_add(1),
        }
    }

    // The command of the line that ends at `e`; nothing of one that is passed over.
    pub fn command(&self, e: usize) -> Command {
        match self.state {
            State::Rest => Command::Nothing,
            _ => command_of(&self.buf, self.from, e),
        }
    }

    // Past the line that ends at `e`: where the rest of one ends, lines stand.
    pub fn pass(&mut self, e: usize, at: usize) {
        self.number = self.counted();
        if let State::Rest = self.state {
            self.state = State::Lines;
        }
        self.from = e.wrapping_add(1);
        self.at = at;
    }

    // With `have` bytes at the start of the input, all answers written.
    fn hold(&mut self, have: usize, state: State) {
        self.from = 0;
        self.have = have;
        self.state = state;
        self.at = 0;
    }

    // The end of the input: what is left is a line, if it is not empty; none where nothing is left.
    fn last_line(&mut self, left: usize) -> Option<()> {
        if left == 0 {
            if self.number == 0 {
                usage();
            }
            return None;
        }
        *self.buf.get_mut(left)? = b'\n';
        self.hold(left + 1, State::Last);
        Some(())
    }

    // What is left of an unfinished line, moved to the start; nothing of one that is passed over.
    fn left_over(&mut self) -> usize {
        match self.state {
            State::Rest => 0,
            _ => run_lines::keep(&mut self.buf, self.from, self.have),
        }
    }

    // A read behind the `left` bytes of an unfinished line.
    fn read_on(&mut self, rt: &impl Input, left: usize) -> Option<()> {
        let n = read(rt, &mut self.buf, left);
        if n == 0 {
            return self.last_line(left);
        }
        self.hold(left.wrapping_add(n), self.state);
        Some(())
    }

    // More input, once the answers are written; none where all is done. A line too long is passed over, up to its line feed.
    pub fn more(&mut self, rt: &impl Input, out: &mut [u8; 262144]) -> Option<()> {
        text_prints::front(Program::Runner, out, self.at);
        if let State::Last = self.state {
            return None;
        }
        let left = self.left_over();
        if left < 65536 {
            return self.read_on(rt, left);
        }
        self.number = self.number.wrapping_add(1);
        say_wrong(&self.buf, self.number, out);
        self.hold(0, State::Rest);
        Some(())
    }
}
