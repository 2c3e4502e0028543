//! One line of a script: what it answers, said to the host.

ghost use Rattle.std.specs.Prelude.{◌≡◌, ◌≤◌, ◌||◌, ◌++◌, ◌∷◌, [], List, ℕ, length, take, drop, true, false, Some, IsTrue, IfOk, IfErr, OnOk, OnErr};
ghost use Rattle.oc_host.specs.Disk.{Says, SaysFront};
ghost use Rattle.oc_machine.specs.Printing.{answer_text as text_of};
ghost use Rattle.oc_machine.specs.Runs.{is_built, is_refusal as refuses, line_step};
ghost use Rattle.oc_run.specs.Rest.{is_in_one_line, rest, Goes};
ghost use Rattle.oc_run.specs.Causes.{SpeakFaults};

use crate::list_store::ListStore;
use oc_host::Host;
use oc_model::answer::{Answer, Word};
use oc_print::answer_text;
use oc_script::{LineFault, parse_line};
use std::alloc::{AllocError, Global};

/// What ends a run before its closing.
#[derive(Clone, Copy, PartialEq, Eq)]
pub enum Stop {
    Memory,
    Host,
    Source,
    TooLong,
}

impl From<AllocError> for Stop {
    ghost use Rattle.std.specs.Prelude.{◌≡◌};
    ghost use Rattle.oc_run.specs.declared.answering.Stop.TheVariants.{Memory};

    ghost from_gives = { λ _ e. e ≡ Memory };

    fn from(_: AllocError) -> Stop {
        Stop::Memory
    }
}

/// Says a text, or a front of it where the host fails.
#[tactic(auto, using(oc_host::proofs::Saying::said_all, oc_host::proofs::Saying::said_front))]
pub fn speak<H: Host>(host: &mut H, text: &[u8]) -> Result<(), Stop>
    ensures said { OnOk result (IsTrue H.tells → Says (H.disk host.old) (H.disk host.new) text.now) }
    ensures front { OnErr result (IsTrue H.tells → SaysFront (H.disk host.old) (H.disk host.new) text.now) }
    ensures cause { SpeakFaults result (H.faults host.old) (H.faults host.new) }
    ensures taken { H.taken host.new ≡ H.taken host.old }
{
    match host.say(text) {
        Ok(()) => Ok(()),
        Err(_) => Err(Stop::Host),
    }
}

/// What a line answers, if it is no blank line and no comment.
#[tactic(auto, unfolding(oc_machine::specs::Runs::line_step, oc_machine::specs::Runs::is_built))]
pub fn respond(
    alloc: Global,
    store: &mut ListStore,
    line: &[u8],
) -> Result<Option<Answer>, AllocError>
    ensures { IfOk result (λ answer. line_step is_built false store.old line.now ≡ (store.new, answer)) }
{
    match parse_line(alloc, line) {
        Ok(None) => Ok(None),
        Ok(Some(command)) => Ok(Some(store.execute(alloc, &command)?)),
        Err(LineFault::Syntax) => Ok(Some(Answer::Refused(Word::Syntax))),
        Err(LineFault::Long) => Ok(Some(Answer::Refused(Word::Long))),
        Err(LineFault::Deep) => Ok(Some(Answer::Refused(Word::Deep))),
        Err(LineFault::Memory) => Err(AllocError),
    }
}

pub fn is_refusal(answer: &Answer) -> bool
    ensures { result ≡ refuses answer.now }
{
    matches!(answer, Answer::Refused(_))
}
