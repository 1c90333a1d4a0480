// The words of the command line.
ghost use Rattle.std.specs.Prelude.{◌≡◌, ◌≢◌, [], drop, IfOk, OnErr};
ghost use Rattle.std.specs.IoError.{error_kind};

use std::alloc::{AllocError, Global};
use std::env;
use std::io::{Error, ErrorKind};

/// The command line as it was given, with the program's own name; without a word where it is no text. `AllocError`:
/// there is no memory.
pub fn command_line(rt: &HostRuntime) -> Result<Vec<String>, AllocError> {
    match env::args(rt) {
        Ok(words) => words.collect(rt.alloc()),
        Err(error) => no_words(rt.alloc(), &error),
    }
}

// What stands for words that the host did not give.
fn no_words(alloc: Global, error: &Error) -> Result<Vec<String>, AllocError>
    ensures no_text { IfOk result (λ words.
        (words.items ≡ []) × (error_kind error.now ≢ ErrorKind.OutOfMemory)) }
    ensures no_memory { OnErr result (error_kind error.now ≡ ErrorKind.OutOfMemory) }
{
    if error.kind() == ErrorKind::OutOfMemory {
        Err(AllocError)
    } else {
        Ok(Vec::new(alloc))
    }
}

/// The words of a command line that follow the first, which names the program.
pub fn without_name(line: &[String]) -> &[String]
    ensures { result.now ≡ drop 1 line.now }
{
    match line {
        [] => line,
        [_name, words @ ..] => words,
    }
}
