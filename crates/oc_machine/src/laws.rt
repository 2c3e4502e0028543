//! Laws of the definitions: each is a clause of a function that does nothing.

ghost use Rattle.std.specs.Prelude.{◌≡◌, Some};
ghost use Rattle.oc_model.specs.Maps.{Text};
ghost use Rattle.oc_model.specs.declared.command.Command.{Command};
ghost use Rattle.oc_machine.specs.Reading.{reading, reads, command_of};
ghost use Rattle.oc_machine.specs.Grammar.{Spells, SpellsLine};
ghost use Rattle.oc_machine.specs.GrammarValues.{Tokens};

/// A line reads as a command exactly where it spells it, and it spells one command at most.
pub fn grammar_is_reading()
    ensures spelled_is_read { (c : Command) (ts : Tokens) → Spells c ts → command_of ts ≡ Some c }
    ensures read_is_spelled { (c : Command) (ts : Tokens) → command_of ts ≡ Some c → Spells c ts }
    ensures line_is_read { (c : Command) (line : Text) → SpellsLine c line → reading line ≡ reads c }
    ensures line_is_spelled { (c : Command) (line : Text) → reading line ≡ reads c → SpellsLine c line }
    ensures one_reading { (c d : Command) (line : Text) → SpellsLine c line → SpellsLine d line → c ≡ d }
{}
