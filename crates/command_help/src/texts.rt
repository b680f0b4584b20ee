// The texts that the commands print.
ghost use Rattle.std.specs.Prelude.{◌≡◌, IfOk};
ghost use Rattle.command_help.specs.Texts.{program_usage, usage_of, version_text};

use command_spec::CommandName;
use sd_value::{NoMemory, Str};
use std::alloc::Global;

const PROGRAM_HEAD: &[u8] = b"\
Strudel makes a web site of data, a query and templates.\n\
\n\
usage: strudel COMMAND\n\
\n";

const PROGRAM_END: &[u8] = b"\
\n\
An option is --name=VALUE, or --name VALUE. Behind a word -- no word is an option.\n";

const VERSION_TEXT: &[u8] = b"\
strudel 0.1.0\n\
rattle-kit-13f logic dac8208d650f15bf\n";

// The usage of the program: the lines of each command between a head and an end.
fn program_usage(alloc: Global) -> Result<Str, NoMemory>
    ensures { IfOk result (λ text. text ≡ program_usage) }
{
    let mut text = Vec::from_slice(alloc, PROGRAM_HEAD)?;
    for name in CommandName::all() {
        text.extend_from_slice(name.row().summary)?;
    }
    text.extend_from_slice(PROGRAM_END)?;
    Str::of(alloc, text)
}

/// The usage of this command, or of the program.
/// # Errors
/// Out of memory.
pub fn usage(alloc: Global, name: Option<CommandName>) -> Result<Str, NoMemory>
    ensures { IfOk result (λ text. text ≡ usage_of name) }
{
    match name {
        Some(name) => Str::new(alloc, name.row().usage),
        None => program_usage(alloc),
    }
}

/// The version of the program, and of the kit that proved it.
pub fn versions() -> &'static [u8]
    ensures { result.now ≡ version_text }
{
    VERSION_TEXT
}
