// Addresses that are themselves what a browser runs or shows.
ghost use Rattle.std.specs.Prelude.{◌≡◌, IfOk};
ghost use Rattle.std.specs.List.{flat_map};
ghost use Rattle.page_spec.specs.Show as spec;

use sd_value::NoMemory;
use std::alloc::Global;

// The address as a browser reads its scheme: without control characters and blanks, and in small letters.
fn scheme_text(alloc: Global, address: &[u8]) -> Result<Vec<u8>, NoMemory>
    ensures { IfOk result (λ read. read.items ≡ flat_map spec.byte_in_scheme address.now) }
{
    let mut read = Vec::with_capacity(alloc, address.len())?;
    for byte in address {
        if *byte > b' ' {
            read.push(byte.to_ascii_lowercase())?;
        }
    }
    Ok(read)
}

/// Whether the address leads nowhere but is itself what a browser runs or shows: its scheme is `javascript:`,
/// `vbscript:` or `data:` as a browser reads it, whatever the case of its letters, and with control characters and
/// blanks passed over.
/// # Errors
/// Out of memory.
pub fn is_active(alloc: Global, address: &[u8]) -> Result<bool, NoMemory>
    ensures { IfOk result (λ active. active ≡ spec.is_active address.now) }
{
    let read = scheme_text(alloc, address)?;
    Ok(
        read.starts_with(b"javascript:")
            || read.starts_with(b"vbscript:")
            || read.starts_with(b"data:"),
    )
}
