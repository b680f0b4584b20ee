// Records of a text, one after another.
ghost use Rattle.std.specs.Prelude.{◌≡◌, ◌<◌, ◌^◌, IfOk, length, option_map};
ghost use Rattle.csv.specs.Reading.{strip_bom, records};
ghost use Rattle.csv.specs.Records.{fields_of};
ghost use Rattle.csv_source.specs.Separators.{separated};
ghost use Rattle.csv_source.specs.Reader.{IsOpen, records_left, bytes_left, GivesFields};

use csv::{ByteRecord, Reader, ReaderBuilder};
use sd_value::{NoMemory, Str};
use std::alloc::Global;

fn copied_fields(alloc: Global, row: &ByteRecord) -> Result<Vec<Str>, NoMemory>
    ensures { IfOk result (λ fields. fields.items ≡ fields_of row.now) }
{
    let mut fields = Vec::with_capacity(alloc, row.len())?;
    for field in row.iter() {
        fields.push(Str::new(alloc, field)?)?;
    }
    Ok(fields)
}

/// The fields of the next record, where there is one.
pub(crate) fn next_fields(
    alloc: Global,
    reader: &mut Reader<&[u8]>,
) -> Result<Option<Vec<Str>>, NoMemory>
    requires { IsOpen reader.old }
    ensures { IfOk result
        (λ o. GivesFields reader.old reader.new (option_map (λ fields. fields.items) o)) }
{
    let mut row = ByteRecord::new(alloc);
    match reader.read_byte_record(&mut row) {
        Ok(true) => Ok(Some(copied_fields(alloc, &row)?)),
        Ok(false) => Ok(None),
        Err(_) => Err(NoMemory),
    }
}

// A slice has fewer bytes than `usize` counts.
fn length_fits(text: &[u8])
    ensures { length text.now < 2 ^ 64 }
{
    let _length = text.len();
}

/// A reader of every record of a text, with this byte between fields.
pub(crate) fn reader_of(alloc: Global, text: &[u8], separator: u8) -> Reader<&[u8]>
    ensures open { IsOpen result }
    ensures records { records_left result ≡ records (separated separator) (strip_bom text.now) }
    ensures small { length (bytes_left result) < 2 ^ 64 }
{
    length_fits(text);
    ReaderBuilder::new()
        .has_headers(false)
        .flexible(true)
        .delimiter(separator)
        .from_reader(alloc, text)
}
