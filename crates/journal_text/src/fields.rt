//! What a word of a journal's line says.
ghost use Rattle.std.specs.Prelude.{◌≡◌};
ghost use Rattle.journal_text.specs.Fields as field;

use line_cuts::{read_number, read_up_to};
use router_desk::DropName;

/// The number of a word, if it is this one.
pub(crate) fn read_this(word: &[u8], number: usize) -> Option<u128>
    ensures { result ≡ field.this_number number word.now }
{
    let read = read_number(word)?;
    if read == number as u128 {
        Some(read)
    } else {
        None
    }
}

/// The label of a pass, below 2^64.
pub(crate) fn read_pass(word: &[u8]) -> Option<u64>
    ensures { result ≡ field.pass_of word.now }
{
    let number = read_number(word)?;
    match u64::try_from(number) {
        Ok(pass) => Some(pass),
        Err(_) => None,
    }
}

/// The number of a circuit, below 256.
pub(crate) fn read_circuit(word: &[u8]) -> Option<u8>
    ensures { result ≡ field.circuit_of word.now }
{
    let number = read_up_to(word, 255)?;
    Some(number as u8)
}

/// A metric, below 2^32.
pub(crate) fn read_metric(word: &[u8]) -> Option<u32>
    ensures { result ≡ field.metric_of word.now }
{
    read_up_to(word, 4_294_967_295)
}

/// The metric of a prefix, or `none`.
pub(crate) fn read_prefix_metric(word: &[u8]) -> Option<Option<u32>>
    ensures { result ≡ field.prefix_metric_of word.now }
{
    if word == b"none".as_slice() {
        return Some(None);
    }
    let metric = read_metric(word)?;
    Some(Some(metric))
}

/// The cause of a drop.
pub(crate) fn read_drop(word: &[u8]) -> Option<DropName>
    ensures { result ≡ field.drop_of word.now }
{
    let causes = [
        DropName::Frame,
        DropName::Version,
        DropName::Pdu,
        DropName::TooLong,
        DropName::WrongKind,
        DropName::WrongLevel,
        DropName::Auth,
        DropName::Value,
        DropName::ZeroNumber,
        DropName::BadChecksum,
        DropName::OwnId,
        DropName::OtherSnpa,
        DropName::OldBoot,
        DropName::NoLevel,
        DropName::NoArea,
        DropName::NoThreeWay,
        DropName::OtherNeighbour,
        DropName::TooMany,
        DropName::NoAdjacency,
        DropName::NotDesignated,
        DropName::StoreFull,
    ];
    cause_among(&causes, word)
}

/// The first of these causes that has this word.
fn cause_among(causes: &[DropName], word: &[u8]) -> Option<DropName>
    ensures { result ≡ field.cause_among causes.now word.now }
{
    let mut left = causes;
    while let [name, more @ ..] = left {
        if word == name.word().as_bytes() {
            return Some(*name);
        }
        left = more;
    }
    None
}
