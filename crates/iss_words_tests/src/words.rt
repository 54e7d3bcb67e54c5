//! Lists of words that `clap` and the program take or refuse alike.
use clap::error::ErrorKind;
use clap::{Arg, Command, value_parser};
use iss_top::command_of;
use std::alloc::{AllocError, Global};
use std::test::Fail;

/// The words of a run, the program's name first, and whether they are a command.
const LISTS: [(&[&str], bool); 16] = [
    (&["issuer"], false),
    (&["issuer", "pay"], false),
    (&["issuer", "replay"], false),
    (&["issuer", "replay", "a", "b"], false),
    (&["issuer", "serve", "d", "80", "81", "0"], false),
    (&["issuer", "serve", "d", "65536", "81", "1"], false),
    (&["issuer", "drill", "0"], false),
    (&["issuer", "drill", "100001"], false),
    (&["issuer", "dry", "-x"], false),
    (&["issuer", "dry"], true),
    (&["issuer", "format", "d", "26", "0"], false),
    (&["issuer", "format", "d", "27", "281474976710655"], true),
    (&["issuer", "replay", "d"], true),
    (&["issuer", "balances", "d"], true),
    (&["issuer", "serve", "d", "1", "65535", "4294967295"], true),
    (&["issuer", "drill", "100000"], true),
];

/// An argument that has to be there.
fn argument(alloc: Global, name: &'static str) -> Arg<'static> {
    Arg::new(alloc, name).required(true)
}

/// A number that has to be there, from `least` to below `end`.
fn number(alloc: Global, name: &'static str, least: i64, end: i64) -> Arg<'static> {
    argument(alloc, name).value_parser(value_parser!(u64).range(least..end))
}

/// The commands, each a subcommand with its arguments.
fn commands(alloc: Global) -> Result<Command<'static>, AllocError> {
    Command::new(alloc, "issuer")
        .subcommand_required(true)
        .subcommand(Command::new(alloc, "dry"))?
        .subcommand(format(alloc)?)?
        .subcommand(Command::new(alloc, "replay").arg(argument(alloc, "device"))?)?
        .subcommand(Command::new(alloc, "balances").arg(argument(alloc, "device"))?)?
        .subcommand(serve(alloc)?)?
        .subcommand(Command::new(alloc, "drill").arg(number(alloc, "events", 1, 100_001))?)
}

fn format(alloc: Global) -> Result<Command<'static>, AllocError> {
    Command::new(alloc, "format")
        .arg(argument(alloc, "device"))?
        .arg(number(alloc, "size", 27, 4_294_967_297))?
        .arg(number(alloc, "instance", 0, 281_474_976_710_656))
}

fn serve(alloc: Global) -> Result<Command<'static>, AllocError> {
    Command::new(alloc, "serve")
        .arg(argument(alloc, "device"))?
        .arg(number(alloc, "port", 1, 65_536))?
        .arg(number(alloc, "gateway", 1, 65_536))?
        .arg(number(alloc, "turns", 1, 4_294_967_296))
}

/// Words that `clap` refuses, though it had the memory to read them.
fn refused(kind: ErrorKind) -> Result<bool, AllocError> {
    match kind {
        ErrorKind::OutOfMemory => Err(AllocError),
        _ => Ok(false),
    }
}

/// Whether `clap` takes these words.
fn is_taken_by_clap(alloc: Global, words: &'static [&'static str]) -> Result<bool, AllocError> {
    match commands(alloc)?.try_get_matches_from(words) {
        Ok(_matches) => Ok(true),
        Err(error) => refused(error.kind()),
    }
}

/// Whether the program takes the words after its name.
fn is_taken(alloc: Global, words: &[&str]) -> Result<bool, AllocError> {
    let mut list = Vec::new(alloc);
    for word in words.get(1..).unwrap_or(&[]) {
        list.push(String::from_str(alloc, word)?)?;
    }
    Ok(command_of(&list).is_ok())
}

#[test]
fn clap_takes_the_same_words(rt: HostRuntime) -> Result<(), Fail> {
    for (words, taken) in LISTS {
        let both = (
            is_taken_by_clap(rt.alloc(), words)?,
            is_taken(rt.alloc(), words)?,
        );
        assert_eq!(rt; both, (taken, taken));
    }
    Ok(())
}
