// The answers to the calls, and to lines that are no command, written into a buffer.
#![tactic(auto)]

ghost use Rattle.std.specs.Prelude.{◌≡◌};
ghost use Rattle.rules_calls.specs.Calls.{number_of};
ghost use Rattle.text_bytes.specs.Text.{text, write};
ghost use Rattle.run_answers.specs.GetText.{granted_text, reply_text};
ghost use Rattle.run_answers.specs.OtherText.{outcome_text, row_text, rows_text, totals_text, stats_text, wrong_text};

use rules_calls::{Granted, Refusal, Reply, Tally, Totals};
use stats_told::Stats;

// The frame and class of a get that is done, and no others.
fn granted(out: &mut [u8], at: usize, g: Result<Granted, Refusal>) -> usize
    ensures { text out.new result ≡ write (text out.old at) (granted_text g) }
{
    match g {
        Ok(Granted { frame, class }) => {
            let to = text_bytes::put_number(out, at, b"0 Done frame ", frame as u64);
            text_bytes::put_number(out, to, b" class ", class as u64)
        }
        Err(x) => {
            let to = text_names::name(out, at, c_numbers::refusal_number(x));
            text_bytes::append(out, to, b" frame - class -")
        }
    }
}

// The answer to a get.
pub fn reply(out: &mut [u8], at: usize, given: Reply) -> usize
    ensures { text out.new result ≡ write (text out.old at) (reply_text given) }
{
    let to = text_bytes::append(out, at, b"get ");
    let g = given.granted;
    let to = granted(out, to, g);
    let to = text_bytes::put_number(out, to, b" looks ", given.looks as u64);
    let to = text_bytes::put_number(out, to, b" tries ", given.tries as u64);
    text_bytes::put_byte(out, to, b'\n')
}

// The answer to a start, a put or a drain.
pub fn outcome(out: &mut [u8], at: usize, call: &[u8], o: Result<(), Refusal>) -> usize
    ensures { text out.new result ≡ write (text out.old at) (outcome_text call.now o) }
{
    let to = text_bytes::append(out, at, call);
    let to = text_names::name(out, to, c_numbers::number(o));
    text_bytes::put_byte(out, to, b'\n')
}

// A row of the statistics.
fn row(out: &mut [u8], at: usize, class: u64, t: Tally) -> usize
    ensures { text out.new result ≡ write (text out.old at) (row_text class t) }
{
    let to = text_bytes::put_number(out, at, b"row ", class);
    let to = text_bytes::put_number(out, to, b" free ", t.free as u64);
    let to = text_bytes::put_number(out, to, b" alloc ", t.alloc as u64);
    let to = text_bytes::put_number(out, to, b" used ", t.used as u64);
    text_bytes::put_byte(out, to, b'\n')
}

// Rows, in the order of their classes.
fn rows(out: &mut [u8], at: usize, rows: &[Tally]) -> usize
    ensures { text out.new result ≡ write (text out.old at) (rows_text 0 rows.now) }
{
    let mut to = at;
    for (class, t) in rows.iter().enumerate() {
        to = row(out, to, class as u64, *t);
    }
    to
}

// The line of the number and the totals.
fn totals(out: &mut [u8], at: usize, number: usize, t: Totals) -> usize
    ensures { text out.new result ≡ write (text out.old at) (totals_text number t) }
{
    let to = text_bytes::append(out, at, b"stats ");
    let to = text_names::name(out, to, number);
    let to = text_bytes::put_number(out, to, b" free ", t.free as u64);
    let to = text_bytes::put_number(out, to, b" trees ", t.trees as u64);
    text_bytes::put_byte(out, to, b'\n')
}

// What refused statistics tell: the refusal's number, and totals that are zeros.
pub fn refused(x: Refusal) -> (usize, Totals)
    ensures number { result.0 ≡ number_of x }
    ensures zeros { result.1 ≡ record { free = 0; trees = 0 } }
{
    (c_numbers::refusal_number(x), Totals { free: 0, trees: 0 })
}

// The answer to statistics: the rows follow where the call is done; refused, it has zeros.
pub fn stats(out: &mut [u8], at: usize, told: Result<Stats, Refusal>) -> usize
    ensures { text out.new result ≡ write (text out.old at) (stats_text told) }
{
    match told {
        Ok(s) => {
            let to = totals(out, at, 0, s.totals);
            rows(out, to, &s.rows)
        }
        Err(x) => {
            let (number, none) = refused(x);
            totals(out, at, number, none)
        }
    }
}

// The answer to a line that is no command: its number.
pub fn wrong(out: &mut [u8], at: usize, number: u64) -> usize
    ensures { text out.new result ≡ write (text out.old at) (wrong_text number) }
{
    let to = text_bytes::put_number(out, at, b"? ", number);
    text_bytes::put_byte(out, to, b'\n')
}
