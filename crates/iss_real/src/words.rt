//! The words that a program is called with.

use std::rt::Env;
use std::{env, io};

/// The words after the program's name.
///
/// # Errors
///
/// `OutOfMemory`, and another kind if a word is not text.
pub fn words_of(rt: &(impl Env + AllocGlobal)) -> io::Result<Vec<String>> {
    Ok(env::args(rt)?.skip(1).collect(rt.alloc())?)
}
