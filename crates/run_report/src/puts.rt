// A put while the log of the run is lent to the output.
ghost use Rattle.std.specs.Prelude.{◌≡◌, ◌++◌, ◌∷◌, [], ℕ, OnOk, MatchResult};
ghost use Rattle.edge_io.specs.Counts.{HasCause};
ghost use Rattle.edge_io.specs.Sink.{Gains, GainsPart};
ghost use Rattle.happenings.specs.Happening.{Put, PutFailed};

use edge_io::{Failed, Sink};
use happenings::Trace;

/// Puts a text while the log is lent to the output: the put is all that is noted.
/// # Errors
/// The output failed, when it had taken a first part of the text.
pub fn put_noted<L: Trace, O: Sink<Log = L>>(
    log: &mut L,
    text: &[u8],
    out: &mut O,
) -> Result<(), Failed>
    ensures whole { OnOk result (Gains (O.text out.old) (O.text out.new) text.now) }
    ensures part { GainsPart (O.text out.old) (O.text out.new) text.now }
    ensures cause { HasCause (O.failed out.old) (O.failed out.new) result }
    ensures stays { O.stream out.new ≡ O.stream out.old }
    ensures course { MatchResult result
        (λ _. L.events log.new ≡ L.events log.old ++ Put (O.stream out.old) text.now ∷ [])
        (λ _. (taken : ℕ) × (L.events log.new
        ≡ L.events log.old ++ PutFailed (O.stream out.old) text.now taken ∷ [])) }
    ensures lent { O.trace out.new ≡ O.trace out.old }
{
    out.lend(log);
    let result = out.put(text);
    out.lend(log);
    result
}
