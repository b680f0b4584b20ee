// The words of a run, and what they give.
ghost use Rattle.std.specs.Prelude.{◌≡◌, IfOk, IfSome, option_map};
ghost use Rattle.command_spec.specs.Ranges.{IsInRange};
ghost use Rattle.command_spec.specs.AccessLog.{given_log};
ghost use Rattle.command_spec.specs.Waits.{default_waits, given_waits};
ghost use Rattle.command_spec.specs.Words as specs;

use command_spec::{Command, NumberOption, ServeWaits};
use command_words::read_command;
use sd_value::{NoMemory, Str};
use std::alloc::Global;
use std::marker::Model;

/// The words of a run, and the command that they give, which is read once.
#[derive(Debug, Drop)]
pub struct GivenWords {
    words: Vec<Str>,
    command: Option<Command>,
}

impl Model for GivenWords {
    ghost use Rattle.std.specs.Prelude.{◌≡◌, List, ℕ, IfSome};
    ghost use Rattle.command_spec.specs.Ranges.{IsInRange};
    ghost use Rattle.command_spec.specs.Words as specs;

    ghost Value = { List (List ℕ) };

    ghost view = { λ g. g.words.items };

    ghost invariant = { λ g. (g.command ≡ specs.command g.words.items) × IfSome g.command IsInRange };
}

pub(crate) fn default_waits() -> ServeWaits
    ensures { result ≡ default_waits }
{
    ServeWaits {
        idle: NumberOption::Idle.otherwise() as u32,
        stall: NumberOption::Stall.otherwise() as u32,
        at_once: NumberOption::OpenAtOnce.otherwise() as u32,
    }
}

impl GivenWords {
    /// Reads the command of the words after the program's name.
    /// # Errors
    /// Out of memory.
    pub fn read(alloc: Global, words: Vec<Str>) -> Result<GivenWords, NoMemory>
        ensures { IfOk result (λ given. given ≡ words.items) }
    {
        let command = read_command(alloc, &words)?;
        Ok(GivenWords { words, command })
    }

    /// The command that the words give, or none.
    pub fn command(&self) -> Option<&Command>
        ensures exact { option_map (λ c. c.now) result ≡ specs.command self.now }
        ensures ranges { IfSome result (λ c. IsInRange c.now) }
    {
        self.command.as_ref()
    }

    /// How long the wire is to wait for a connection: what the words say where they give `serve`, and else the defaults.
    pub fn waits(&self) -> ServeWaits
        ensures { result ≡ given_waits (specs.command self.now) }
    {
        match &self.command {
            Some(Command::Serve(command)) => command.options.waits,
            _ => default_waits(),
        }
    }

    /// The file that a line of each reply is to be added to, if the words give `serve` and name one.
    pub fn log(&self) -> Option<&Str>
        ensures { option_map (λ path. path.now) result ≡ given_log (specs.command self.now) }
    {
        match &self.command {
            Some(Command::Serve(command)) => command.log.as_ref(),
            _ => None,
        }
    }
}
