// The picture for people: trees as a map of fill, class and reservation, the locals, the totals; at most 100 columns.
ghost use Rattle.std.specs.Prelude.{◌<◌};

use rules::{Header, Local, Tree};
use rules_calls::Totals;
use text_prints::Program;

// How full a tree is: `.` all free, 1 to 9 tenths held, `#` all held, `!` more free than a tree has.
fn fill_sign(free: usize) -> u8 {
    match free {
        0 => b'#',
        1..2048 => digit(1 + (2047 - free) * 9 / 2048),
        2048 => b'.',
        _ => b'!',
    }
}

// A digit's sign.
fn digit(n: usize) -> u8 {
    if n > 9 {
        return b'?';
    }
    b'0' + n as u8
}

// Whether a tree is reserved.
fn reserved_sign(reserved: bool) -> u8 {
    if reserved { b'*' } else { b' ' }
}

// A tree's cell: a space, its fill, its class, and a star if it is reserved.
fn cell(t: Tree) {
    let signs = [
        b' ',
        fill_sign(t.free),
        digit(t.class),
        reserved_sign(t.reserved),
    ];
    text_prints::text(Program::Runner, &signs);
}

// A new line of the map, and its first tree's number in three places.
fn margin(i: usize) {
    let mut text = [0u8; 20];
    let to = text_bytes::put_padded(&mut text, 0, i as u64, 3);
    text_prints::text(Program::Runner, b"\n  ");
    text_prints::front(Program::Runner, &text, to);
}

// What stands before a tree's cell: at each twentieth a new line and its number.
fn before(i: usize) {
    if i % 20 == 0 {
        margin(i);
    }
}

// The map of the trees.
fn map(trees: &[u32]) {
    for (i, w) in trees.iter().enumerate() {
        before(i);
        cell(word_fields::tree_of(*w));
    }
}

// A local, if it is present: its slot, its tree and its free.
fn one_local(i: usize, l: Local) {
    if l.present {
        text_prints::form(
            Program::Runner,
            b"  local %: tree %, row %, free %\n",
            [i, l.row / 32, l.row, l.free],
        );
    }
}

// The present locals.
fn local_lines(locals: &[u64]) {
    for (i, w) in locals.iter().enumerate() {
        one_local(i, word_fields::local_of(*w));
    }
}

// A class, if it is configured: its locals, and the slot of the first of their words.
fn class_line(h: Header, class: usize)
    requires { class < 8 }
{
    if word_header::is_configured(h, class) {
        let locals = word_header::locals_of(h, class);
        let first = word_header::first_slot(h, class);
        text_prints::form(
            Program::Runner,
            b"  class %: locals %, the first is local %\n",
            [class, locals, first, 0],
        );
    }
}

// The configured classes.
fn class_lines(h: Header) {
    for class in 0..8 {
        class_line(h, class);
    }
}

// Whether the state stands, and the totals, on so many frames and trees.
fn total_line(number: usize, t: Totals, frames: usize, trees: usize) {
    text_prints::text(Program::Runner, b"state ");
    text_prints::name(Program::Runner, number);
    text_prints::form(
        Program::Runner,
        b": free frames % of %, whole free trees % of %\n",
        [t.free, frames, t.trees, trees],
    );
}

// The totals of the words.
fn totals(h: Header, table: &[u32; 64], trees: &[u32], locals: &[u64], bits: &[u64]) {
    let (number, t) = match stats_lent::report(h, table, trees, locals, bits, 8) {
        Ok(told) => (0, told.totals),
        Err(x) => run_answers::refused(x),
    };
    total_line(number, t, h.frames, trees.len());
}

// The header, and the signs of the map.
fn heading(h: Header) {
    text_prints::form(
        Program::Runner,
        b"frames %, default class %\n\
        trees: . free, 1 to 9 tenths held, # none free; then the class; * reserved, its free is with a local",
        [h.frames, h.default, 0, 0],
    );
}

// The classes and the reservations.
fn holders(h: Header, locals: &[u64]) {
    text_prints::text(Program::Runner, b"\nclasses\n");
    class_lines(h);
    text_prints::text(Program::Runner, b"reservations\n");
    local_lines(locals);
}

// The whole picture.
pub fn look(h: Header, table: &[u32; 64], trees: &[u32], locals: &[u64], bits: &[u64]) {
    heading(h);
    map(trees);
    holders(h, locals);
    totals(h, table, trees, locals, bits);
}
