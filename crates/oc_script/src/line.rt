//! The command of a line.

ghost use Rattle.std.specs.Prelude.{◌≡◌};
ghost use Rattle.oc_machine.specs.Reading.{reading, says_nothing};
ghost use Rattle.oc_script.specs.Line.{ReadsAs};

use crate::lexer::{is_blank, tokens};
use crate::parser::{command_of, is_deep};
use oc_model::command::Command;
use std::alloc::{AllocError, Global};

/// The most bytes that a line may have.
const MOST_BYTES: usize = 65_535;

/// Why a line gives no command.
#[derive(Clone, Copy, Debug, PartialEq, Eq)]
pub enum LineFault {
    /// The line is no command.
    Syntax,
    /// The line has more than 65,535 bytes.
    Long,
    /// More than 64 parentheses are open at a place of the line.
    Deep,
    /// There is no memory for the command.
    Memory,
}

impl From<AllocError> for LineFault {
    ghost use Rattle.std.specs.Prelude.{◌≡◌};
    ghost use Rattle.oc_script.specs.declared.line.LineFault.TheVariants.{Memory};

    ghost from_gives = { λ _ e. e ≡ Memory };

    fn from(_error: AllocError) -> LineFault {
        LineFault::Memory
    }
}

/// Whether the line has blanks alone, or a comment behind them.
fn says_nothing(line: &[u8]) -> bool
    ensures { result ≡ says_nothing line.now }
{
    for byte in line {
        if *byte == b'#' {
            return true;
        }
        if !is_blank(*byte) {
            return false;
        }
    }
    true
}

/// The command of a line, without its line feed.
///
/// A line of blanks, or of a comment behind blanks, has none. No memory is taken for it.
///
/// # Errors
///
/// `Long` for a line of more than 65,535 bytes, whatever it holds. `Deep` for one that falls into
/// tokens of which more than 64 are `(` that are open at a place. `Syntax` for every other line that
/// is no command. `Memory` where there is no memory for the command.
#[tactic(auto, unfolding(oc_machine::specs::Reading::reading))]
pub fn parse_line(alloc: Global, line: &[u8]) -> Result<Option<Command>, LineFault>
    ensures { ReadsAs (reading line.now) result }
{
    if line.len() > MOST_BYTES {
        return Err(LineFault::Long);
    }
    if says_nothing(line) {
        return Ok(None);
    }
    let Some(tokens) = tokens(alloc, line)? else {
        return Err(LineFault::Syntax);
    };
    if is_deep(&tokens) {
        return Err(LineFault::Deep);
    }
    let Some(command) = command_of(alloc, &tokens)? else {
        return Err(LineFault::Syntax);
    };
    Ok(Some(command))
}
