// The numbers of refusals that all texts of tokens share.
ghost use Rattle.data_source.specs.Numbered.{text_told, Tells};

use sd_value::NoMemory;
use token_reader::TextRefusal;

/// The number of a refusal, and the byte at which it is.
#[derive(Clone, Copy, Debug)]
pub struct NumberedFault {
    pub number: u32,
    pub at: u64,
}

/// What a refused text reports, if `expected` is the number of its grammar.
/// # Errors
/// The reader was out of memory.
pub fn told_of_text(refusal: &TextRefusal, expected: u32) -> Result<NumberedFault, NoMemory>
    ensures { Tells (text_told expected refusal.now) result }
{
    match refusal {
        TextRefusal::BadByte(at) => Ok(NumberedFault {
            number: 21,
            at: *at,
        }),
        TextRefusal::OpenString(at) => Ok(NumberedFault {
            number: 22,
            at: *at,
        }),
        TextRefusal::IntOutOfRange(at) => Ok(NumberedFault {
            number: 23,
            at: *at,
        }),
        TextRefusal::TooLong(at) => Ok(NumberedFault {
            number: 24,
            at: *at,
        }),
        TextRefusal::Expected(at) => Ok(NumberedFault {
            number: expected,
            at: *at,
        }),
        TextRefusal::NoMemory => Err(NoMemory),
    }
}
