// Reads the blocks of a table.
use anyhow::{Context, Result, bail};
use std::alloc::Global;

/// A line of words, and the text that follows it. Of a text with a name the line is `text NAME`.
#[derive(Drop)]
pub struct Text {
    pub head: String,
    pub bytes: Vec<u8>,
}

/// The number that a word stands for.
pub fn number(word: Option<&str>) -> Result<u64> {
    Ok(word.context("a number is missing")?.parse::<u64>()?)
}

/// The number of bytes that a word stands for.
pub fn size(word: Option<&str>) -> Result<usize> {
    Ok(word.context("a number is missing")?.parse::<usize>()?)
}

// The part of a text that `NAME FROM TO` stands for.
fn part_of<'a>(texts: &'a [Text], line: &str) -> Result<&'a [u8]> {
    let mut words = line.split(' ');
    let name = words.next().context("a name is missing")?;
    let text = texts
        .iter()
        .find(|text| text.head.as_str().strip_prefix("text ") == Some(name))
        .context("no such text")?;
    let from = size(words.next())?;
    let to = size(words.next())?;
    text.bytes.get(from..to).context("no such part")
}

// Adds to a text what one of its lines stands for.
fn append(alloc: Global, texts: &[Text], line: &str, bytes: &mut Vec<u8>) -> Result<()> {
    let (mark, rest) = line.split_at_checked(1).context("an empty line")?;
    match mark {
        "." => bytes.extend_from_slice(rest.as_bytes())?,
        "|" => {
            bytes.extend_from_slice(rest.as_bytes())?;
            bytes.push(b'\n')?;
        }
        "%" => bytes.extend_from_slice(&hex::decode(alloc, rest)?)?,
        "@" => bytes.extend_from_slice(part_of(texts, rest)?)?,
        "*" => {
            let (times, part) = rest.split_once(' ').context("no text to repeat")?;
            for _ in 0..times.parse::<u32>()? {
                bytes.extend_from_slice(part.as_bytes())?;
            }
        }
        _ => bail!("no line of a text"),
    }
    Ok(())
}

/// The lines of words of a block, each with its text.
pub fn sections(alloc: Global, texts: &[Text], block: &str) -> Result<Vec<Text>> {
    let mut sections: Vec<Text> = Vec::new(alloc);
    for line in block.split('\n') {
        if line.starts_with(|c: char| c.is_ascii_lowercase()) {
            sections.push(Text {
                head: String::from_str(alloc, line)?,
                bytes: Vec::new(alloc),
            })?;
        } else {
            let last = sections.last_mut().context("a text of nothing")?;
            append(alloc, texts, line, &mut last.bytes)?;
        }
    }
    Ok(sections)
}
