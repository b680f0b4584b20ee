//! What follows of all that happens in a run: which files it reads, what comes before its first
//! event, and how it ends without words.
#![tactic(auto)]

ghost use Rattle.std.specs.Prelude.{◌≡◌, ◌++◌, ◌∷◌, ℕ, List, IfErr};
ghost use Rattle.happenings.specs.Happening.{Happening, Given};
ghost use Rattle.happenings.specs.declared.event.WireEvent.{WireEvent};
ghost use Rattle.happenings.specs.declared.stream.Stream.{Stream};
ghost use Rattle.command_spec.specs.Inputs.{given_inputs};
ghost use Rattle.run_report.specs.Report.{code};
ghost use Rattle.command_run.specs.Main.{Words, Seen, command_given, status_without};
ghost use Rattle.command_run.specs.IsRun.{IsRun};
ghost use Rattle.run_laws.specs.Order.{ReadsFirst, HasListened};

/// A run reads its command's files, in their order and each once, up to the first that ends it, before anything else
/// happens. It reads no other file, and none later.
pub fn a_run_reads_its_files_first()
    ensures { (output errors : Stream) (words : Words) (before after : Seen)
        (trace : List Happening) (exit : ℕ)
        → IsRun output errors words before after trace exit
        → ReadsFirst (given_inputs (command_given words)) trace }
{}

/// Before any event a command `serve` has let the wire listen, and has then put its line, whole.
pub fn events_come_after_the_line()
    ensures { (output errors : Stream) (words : Words) (before after : Seen)
        (trace front later : List Happening) (event : WireEvent) (exit : ℕ)
        → IsRun output errors words before after trace exit
        → trace ≡ front ++ Given event ∷ later
        → HasListened output (command_given words) front }
{}

/// A run without words ends with the exit code of their reason.
pub fn a_run_without_words_tells_their_reason()
    ensures { (output errors : Stream) (words : Words) (before after : Seen)
        (trace : List Happening) (exit : ℕ)
        → IsRun output errors words before after trace exit
        → IfErr words (λ reason. exit ≡ code (status_without reason)) }
{}
