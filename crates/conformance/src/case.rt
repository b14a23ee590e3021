//! What a case gives to a command, and how the command is to end.

use anyhow::{Context, Result, bail};
use std::alloc::Global;

/// A text by its name.
#[derive(Drop)]
pub struct Text {
    pub name: String,
    pub bytes: Vec<u8>,
}

/// What limits a shelf or a sink.
#[derive(Drop)]
pub struct Limits {
    /// How many bytes a sink takes in all.
    pub room: usize,
    /// How many bytes one call gives or takes.
    pub most: usize,
    /// The calls that fail, counted from 0.
    pub fails: Vec<u64>,
}

impl Limits {
    fn new(alloc: Global) -> Limits {
        Limits {
            room: 262_144,
            most: usize::MAX,
            fails: Vec::new(alloc),
        }
    }
}

/// Calls in a row that read one text.
#[derive(Drop)]
pub struct Reads {
    pub name: String,
    pub calls: u64,
}

// The text that pieces are appended to.
#[derive(Clone, Copy)]
enum Target {
    None,
    File,
    Output,
    Error,
}

/// A case: the words of a command, the texts, the limits, and how the command ends.
#[derive(Drop)]
pub struct Case {
    pub name: String,
    pub words: Vec<String>,
    pub files: Vec<Text>,
    pub shelf: Limits,
    pub out: Limits,
    pub err: Limits,
    pub status: u8,
    pub output: Vec<u8>,
    /// Whether only the end of the output is wanted.
    pub is_end: bool,
    pub error: Vec<u8>,
    /// The calls of the shelf, each of which is to fail in turn.
    pub reads: Vec<Reads>,
    /// Whether each call that writes a byte of the output is to fail in turn.
    pub writes: bool,
    target: Target,
}

impl Case {
    pub fn new(alloc: Global, name: &str) -> Result<Case> {
        Ok(Case {
            name: String::from_str(alloc, name)?,
            words: Vec::new(alloc),
            files: Vec::new(alloc),
            shelf: Limits::new(alloc),
            out: Limits::new(alloc),
            err: Limits::new(alloc),
            status: 0,
            output: Vec::new(alloc),
            is_end: false,
            error: Vec::new(alloc),
            reads: Vec::new(alloc),
            writes: false,
            target: Target::None,
        })
    }

    /// Takes one line of the case.
    pub fn take(&mut self, alloc: Global, line: &str) -> Result<()> {
        let (head, rest) = cut(line);
        match head {
            "|" | ":" | "bytes" | "times" | "count" => append(alloc, line, self.text()?),
            "words" => {
                self.words = words_of(alloc, rest)?;
                Ok(())
            }
            "file" => self.begin_file(alloc, rest),
            "status" => {
                self.status = rest.parse::<u8>()?;
                Ok(())
            }
            "output" => {
                self.target = Target::Output;
                Ok(())
            }
            "output-end" => {
                self.is_end = true;
                self.target = Target::Output;
                Ok(())
            }
            "error" => self.begin_error(rest),
            "reads" => self.add_reads(alloc, rest),
            "writes" => {
                self.writes = true;
                Ok(())
            }
            _ => self.limit(head, rest),
        }
    }

    // The text that pieces are appended to.
    fn text(&mut self) -> Result<&mut Vec<u8>> {
        match self.target {
            Target::None => None,
            Target::File => self.files.last_mut().map(|file| &mut file.bytes),
            Target::Output => Some(&mut self.output),
            Target::Error => Some(&mut self.error),
        }
        .context("a piece of no text")
    }

    fn begin_file(&mut self, alloc: Global, name: &str) -> Result<()> {
        self.files.push(Text {
            name: String::from_str(alloc, name)?,
            bytes: Vec::new(alloc),
        })?;
        self.target = Target::File;
        Ok(())
    }

    // An error line may stand on the line itself.
    fn begin_error(&mut self, line: &str) -> Result<()> {
        if !line.is_empty() {
            self.error.extend_from_slice(line.as_bytes())?;
            self.error.push(b'\n')?;
        }
        self.target = Target::Error;
        Ok(())
    }

    fn add_reads(&mut self, alloc: Global, rest: &str) -> Result<()> {
        let (name, calls) = cut(rest);
        self.reads.push(Reads {
            name: String::from_str(alloc, name)?,
            calls: calls.parse::<u64>()?,
        })?;
        Ok(())
    }

    fn limit(&mut self, head: &str, rest: &str) -> Result<()> {
        match head {
            "shelf-bytes" => self.shelf.most = rest.parse::<usize>()?,
            "shelf-fails" => self.shelf.fails.push(rest.parse::<u64>()?)?,
            "out-room" => self.out.room = rest.parse::<usize>()?,
            "out-bytes" => self.out.most = rest.parse::<usize>()?,
            "out-fails" => self.out.fails.push(rest.parse::<u64>()?)?,
            "err-room" => self.err.room = rest.parse::<usize>()?,
            "err-bytes" => self.err.most = rest.parse::<usize>()?,
            "err-fails" => self.err.fails.push(rest.parse::<u64>()?)?,
            _ => bail!("no line begins with {head}"),
        }
        Ok(())
    }
}

/// A line's first word, and what follows the space after it.
pub fn cut(line: &str) -> (&str, &str) {
    line.split_once(' ').unwrap_or((line, ""))
}

fn words_of(alloc: Global, line: &str) -> Result<Vec<String>> {
    let mut words = Vec::new(alloc);
    if line.is_empty() {
        return Ok(words);
    }
    for word in line.split(' ') {
        words.push(String::from_str(alloc, word)?)?;
    }
    Ok(words)
}

// Appends a piece of a text, as often as its line says.
fn append(alloc: Global, line: &str, text: &mut Vec<u8>) -> Result<()> {
    let (head, rest) = cut(line);
    let (number, line_again) = cut(rest);
    match head {
        "times" => {
            let piece = piece(alloc, line_again)?;
            repeat(alloc, &piece, number.parse::<u32>()?, text)?;
        }
        "count" => {
            for n in 0..number.parse::<u32>()? {
                text.extend_from_slice(&numbered(alloc, line_again, n)?)?;
            }
        }
        _ => text.extend_from_slice(&piece(alloc, line)?)?,
    }
    Ok(())
}

// How many copies of a piece are appended at once.
const BLOCK: u32 = 1_024;

// Appends copies of a piece.
fn repeat(alloc: Global, piece: &[u8], times: u32, text: &mut Vec<u8>) -> Result<()> {
    let mut block = Vec::new(alloc);
    if times >= BLOCK {
        for _ in 0..BLOCK {
            block.extend_from_slice(piece)?;
        }
    }
    for _ in 0..times / BLOCK {
        text.extend_from_slice(&block)?;
    }
    for _ in 0..times % BLOCK {
        text.extend_from_slice(piece)?;
    }
    Ok(())
}

// A piece with a number in the place of its `#`.
fn numbered(alloc: Global, line: &str, number: u32) -> Result<Vec<u8>> {
    match line.split_once('#') {
        Some((before, after)) => {
            let line = format!(in alloc; "{before}{number}{after}")?;
            piece(alloc, line.as_str())
        }
        None => piece(alloc, line),
    }
}

// The bytes of a piece: a line with its line feed, one without it, or bytes by their numbers.
fn piece(alloc: Global, line: &str) -> Result<Vec<u8>> {
    let (head, rest) = cut(line);
    let mut bytes = Vec::new(alloc);
    match head {
        "|" => {
            bytes.extend_from_slice(rest.as_bytes())?;
            bytes.push(b'\n')?;
        }
        ":" => bytes.extend_from_slice(rest.as_bytes())?,
        "bytes" => {
            for word in rest.split(' ') {
                bytes.push(word.parse::<u8>()?)?;
            }
        }
        _ => bail!("no piece begins with {head}"),
    }
    Ok(bytes)
}
