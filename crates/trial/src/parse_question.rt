// Reading a question to the schedulability tests.
use crate::call::Call;
use crate::parse::Unread;
use crate::question::{LayerEntry, Question, TestName};
use std::alloc::Global;
use std::str::FromStr;

/// The most layers of a pile.
const MOST_LAYERS: usize = 3;

/// The fields of `ask`: a test, a pile and the times.
pub(crate) fn ask(heap: Global, fields: &[&str]) -> Result<Call, Unread> {
    let [test, pile, times @ ..] = fields else {
        return Err(Unread::Foreign);
    };
    Ok(Call::Ask {
        test: test.parse()?,
        question: question(heap, pile, times)?,
    })
}

/// The fields of `tell`: a pile, a task's place and the times.
pub(crate) fn tell(heap: Global, fields: &[&str]) -> Result<Call, Unread> {
    let [pile, place, times @ ..] = fields else {
        return Err(Unread::Foreign);
    };
    Ok(Call::Tell {
        place: plain_number(place)?,
        question: question(heap, pile, times)?,
    })
}

/// The pile and the times of a question.
fn question(heap: Global, pile: &str, times: &[&str]) -> Result<Question, Unread> {
    Ok(Question {
        layers: layers(heap, pile)?,
        times: times
            .iter()
            .map(|time| plain_number(time))
            .try_collect(heap)?,
    })
}

impl FromStr for TestName {
    type Err = Unread;

    fn from_str(word: &str) -> Result<TestName, Unread> {
        match word {
            "fixed" => Ok(TestName::Fixed),
            "earliest" => Ok(TestName::Earliest),
            _ => Err(Unread::Foreign),
        }
    }
}

/// The layers of a pile, the outermost first, with commas between; `-` is the pile of none.
fn layers(heap: Global, word: &str) -> Result<Vec<LayerEntry>, Unread> {
    if word == "-" {
        return Ok(Vec::new(heap));
    }
    let words: Vec<&str> = word.split(',').collect(heap)?;
    if words.len() > MOST_LAYERS {
        return Err(Unread::Foreign);
    }
    words
        .as_slice()
        .iter()
        .map(|layer| -> Result<LayerEntry, Unread> { layer.parse() })
        .try_collect(heap)
}

/// A layer: the letter of its kind and its number.
impl FromStr for LayerEntry {
    type Err = Unread;

    fn from_str(word: &str) -> Result<LayerEntry, Unread> {
        if let Some(ticks) = word.strip_prefix('c') {
            return Ok(LayerEntry::Charge(plain_number(ticks)?));
        }
        if let Some(thousandths) = word.strip_prefix('m') {
            return Ok(LayerEntry::Margin(plain_number(thousandths)?));
        }
        Err(Unread::Foreign)
    }
}

/// The number that a word spells in digits alone, with no sign.
fn plain_number(word: &str) -> Result<u32, Unread> {
    if word.starts_with('+') {
        return Err(Unread::Foreign);
    }
    Ok(word.parse()?)
}
