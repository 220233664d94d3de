// Reading a line of a script: the name of a call and its arguments, in words.
use crate::call::{Call, Entry};
use crate::parse_question::{ask, tell};
use hex::{FromHex, FromHexError};
use std::alloc::{AllocError, Global};
use std::num::ParseIntError;
use std::str::{Utf8Error, from_utf8};
use thiserror::Error;

/// Why a line gives no call.
#[derive(Debug, Drop, Error)]
pub enum Unread {
    #[error("a line of no known form")]
    Foreign,
    #[error("no text: {0}")]
    Text(#[from] Utf8Error),
    #[error("no number that the call can take: {0}")]
    Number(#[from] ParseIntError),
    #[error("no bytes in hexadecimal: {0}")]
    Hex(#[from] FromHexError),
    #[error("{0}")]
    Memory(#[from(alloc)] AllocError),
}

/// The call of a line.
pub(crate) fn parse(heap: Global, line: &[u8]) -> Result<Call, Unread> {
    let words: Vec<&str> = from_utf8(line)?.split_whitespace().collect(heap)?;
    match words.as_slice() {
        ["make", size] => Ok(Call::Make {
            size: size.parse()?,
        }),
        ["enter", fields @ ..] => Ok(Call::Enter(entry(heap, fields)?)),
        ["append", fields @ ..] => Ok(Call::Append(entry(heap, fields)?)),
        ["amend", number, class, time] => Ok(Call::Amend {
            number: number.parse()?,
            class: class.parse()?,
            time: time.parse()?,
        }),
        ["withdraw", number] => Ok(Call::Withdraw {
            number: number.parse()?,
        }),
        ["load", hex @ ..] => Ok(Call::Load {
            sheet: bytes(heap, hex)?,
        }),
        ["write", length] => Ok(Call::Write {
            length: length.parse()?,
        }),
        ["classes", list @ ..] => Ok(Call::Classes {
            list: list
                .iter()
                .map(|class| -> Result<u8, Unread> { Ok(class.parse()?) })
                .try_collect(heap)?,
        }),
        ["ask", fields @ ..] => ask(heap, fields),
        ["tell", fields @ ..] => tell(heap, fields),
        _ => Err(Unread::Foreign),
    }
}

/// The fields of a new task: its number, period and deadline, and a time for each class.
fn entry(heap: Global, fields: &[&str]) -> Result<Entry, Unread> {
    let [number, period, deadline, times @ ..] = fields else {
        return Err(Unread::Foreign);
    };
    Ok(Entry {
        number: number.parse()?,
        period: period.parse()?,
        deadline: deadline.parse()?,
        times: times
            .iter()
            .map(|time| -> Result<u32, Unread> { Ok(time.parse()?) })
            .try_collect(heap)?,
    })
}

/// The bytes of a sheet in hexadecimal, two digits each; the empty sheet has no word.
fn bytes(heap: Global, words: &[&str]) -> Result<Vec<u8>, Unread> {
    let mut bytes = Vec::new(heap);
    for word in words {
        // Byte by byte: memory is taken for the bytes that were read, and not beforehand for all that a long word may have.
        for digits in word.as_bytes().chunks(2) {
            let [byte] = <[u8; 1]>::from_hex(digits)?;
            bytes.push(byte)?;
        }
    }
    Ok(bytes)
}
