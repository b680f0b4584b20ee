// Calls with their values, and how they are compared.
use function_spec::Function;
use sd_value::{Datum, NoMemory, Str, Value};
use std::alloc::Global;
use std::test::Fail;

// A value of a row.
#[derive(Clone, Copy, Debug)]
pub enum Given {
    Int(i64),
    Text(&'static [u8]),
    Url(&'static [u8]),
    Node(&'static [u8]),
}

// A call and its values, in the order of values.
pub struct CallRow {
    pub call: Function,
    pub given: &'static [Given],
    pub want: &'static [Given],
}

fn value(alloc: Global, given: Given) -> Result<Value, NoMemory> {
    let datum = match given {
        Given::Int(n) => Datum::Int(n),
        Given::Text(bytes) => Datum::Text(Str::new(alloc, bytes)?),
        Given::Url(bytes) => Datum::Url(Str::new(alloc, bytes)?),
        Given::Node(bytes) => Datum::Node(Str::new(alloc, bytes)?),
    };
    Ok(Value::Data(datum))
}

fn values(alloc: Global, given: &[Given]) -> Result<Vec<Value>, NoMemory> {
    let mut values = Vec::new(alloc);
    for one in given {
        let value = value(alloc, *one)?;
        values.push(value)?;
    }
    Ok(values)
}

fn check_row(alloc: Global, row: &CallRow) -> Result<(), Fail> {
    let arguments = values(alloc, row.given)?;
    let wanted = values(alloc, row.want)?;
    let found = text_functions::values(alloc, row.call, &arguments)?;
    if found.as_slice() == wanted.as_slice() {
        return Ok(());
    }
    Err(Fail::new(format_args!("{:?} of {:?}", row.call, row.given)))
}

// Fails at the first row whose call gives other values.
pub fn check_rows(alloc: Global, rows: &[CallRow]) -> Result<(), Fail> {
    for row in rows {
        check_row(alloc, row)?;
    }
    Ok(())
}
