// A line read into a command: its name says which. No function asks more of its arguments than their types.
#![tactic(auto)]

use run_commands::{Call, Command, Show};
use run_lines::Words;

// start free, start held
fn start(mut words: Words) -> Option<Call> {
    let all_free = match words.next()? {
        b"free" => true,
        b"held" => false,
        _ => return None,
    };
    words.end()?;
    Some(Call::Start(all_free))
}

// The command of a name and the words after it.
fn named(name: &[u8], mut words: Words) -> Option<Command> {
    match name {
        b"frames" => Some(Command::Set(run_commands::frames(words)?)),
        b"default" => Some(Command::Set(run_commands::default_class(words)?)),
        b"class" => Some(Command::Set(run_commands::class(words)?)),
        b"lend" => Some(Command::Set(run_commands::lend(words)?)),
        b"rows" => Some(Command::Set(run_commands::rows(words)?)),
        b"pair" => Some(Command::Store(run_commands::pair(words)?)),
        b"entry" => Some(Command::Store(run_commands::entry(words)?)),
        b"local" => Some(Command::Store(run_commands::local(words)?)),
        b"word" => Some(Command::Store(run_commands::bitmap_word(words)?)),
        b"fill" => Some(Command::Store(run_commands::fill(words)?)),
        b"start" => Some(Command::Call(start(words)?)),
        b"get" => Some(Command::Call(run_commands::get(words)?)),
        b"put" => Some(Command::Call(run_commands::put(words)?)),
        _ => {
            words.end()?;
            alone(name)
        }
    }
}

// A command of one word.
fn alone(name: &[u8]) -> Option<Command> {
    match name {
        b"drain" => Some(Command::Call(Call::Drain)),
        b"stats" => Some(Command::Call(Call::Stats)),
        b"dump" => Some(Command::Show(Show::Dump)),
        b"sum" => Some(Command::Show(Show::Sum)),
        b"look" => Some(Command::Show(Show::Look)),
        _ => None,
    }
}

// What a line says, without its line feed.
pub fn parse(line: &[u8]) -> Command {
    if line.starts_with(b"#") {
        return Command::Nothing;
    }
    let mut words = Words::new(line);
    match words.next() {
        Some(name) => named(name, words).unwrap_or(Command::Wrong),
        None => Command::Nothing,
    }
}
