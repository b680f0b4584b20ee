//! The command `data`: the data as one data text.
#![tactic(auto)]

ghost use Rattle.std.specs.Prelude.{◌≡◌};
ghost use Rattle.std.specs.Option.{ForSome};
ghost use Rattle.command_spec.specs.Inputs.{data_paths};
ghost use Rattle.site_inputs.specs.Reads.{Reads};
ghost use Rattle.site_inputs.specs.Runs.{ReadsHaveCause};
ghost use Rattle.command_data.specs.Ends.{DataEnds};

mod laws;

use command_spec::DataCommand;
use edge_io::Files;
pub use laws::data_is_decided;
use sd_ddl::write_ddl;
use sd_value::Str;
use site_inputs::{Fault, load_data};
use std::alloc::Global;

/// The canonical text of the data: of the union of the data files or, with a first query, of its site over it.
/// # Errors
/// The first of these files that is refused or unread, or out of memory.
pub fn data<F: Files>(alloc: Global, files: &mut F, command: &DataCommand) -> Result<Str, Fault>
    ensures ends { ForSome (F.contents files.old) (λ map. DataEnds map command.now result) }
    ensures same { F.contents files.new ≡ F.contents files.old }
    ensures cause { ReadsHaveCause (data_paths command.now.sources command.now.over)
        (F.failed_reads files.old) (F.failed_reads files.new) result }
    ensures traced { Reads (data_paths command.now.sources command.now.over)
        (F.trace files.old) (F.trace files.new) (F.contents files.old) result
        (λ map. DataEnds map command.now result) }
{
    let data = load_data(alloc, files, &command.sources, &command.over)?;
    let mut text = Vec::new(alloc);
    write_ddl(alloc, &data.graph, &mut text)?;
    Ok(Str::of(alloc, text)?)
}
