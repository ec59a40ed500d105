//! The command lines that calls are.
ghost use Rattle.std.specs.Prelude.{◌≡◌, IfOk};
ghost use Rattle.sumcheck_run.specs.Program.{command_in};
ghost use Rattle.sumcheck_c.specs.Commands.{make_command, word_command};

use itoa::Buffer;
use std::alloc::{AllocError, Global};
use std::str;

/// The command line of one word. Where the word is no text it names no command, and the line has
/// no words.
pub(crate) fn of_word(alloc: Global, word: &[u8]) -> Result<Vec<String>, AllocError>
    ensures { IfOk result (λ line. command_in line.items ≡ word_command word.now) }
{
    let Ok(text) = str::from_utf8(word) else {
        return Ok(Vec::new(alloc));
    };
    Ok(vec![in alloc; String::from_str(alloc, text)?]?)
}

/// The command line of `make` with these words. Where the strategy is no text it is none, and the
/// line has no words.
pub(crate) fn of_make(
    alloc: Global,
    variables: u64,
    number: u64,
    strategy: &[u8],
) -> Result<Vec<String>, AllocError>
    ensures { IfOk result (λ line. command_in line.items
        ≡ make_command variables number strategy.now) }
{
    let Ok(text) = str::from_utf8(strategy) else {
        return Ok(Vec::new(alloc));
    };
    Ok(vec![in alloc;
        String::from_str(alloc, "make")?,
        String::from_str(alloc, Buffer::new().format(variables))?,
        String::from_str(alloc, Buffer::new().format(number))?,
        String::from_str(alloc, text)?,
    ]?)
}
