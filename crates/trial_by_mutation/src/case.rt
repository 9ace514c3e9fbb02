//! What mutants are made from: a problem, its list of games and a certificate that proves it.
use crate::refusal::Refusal;
use pg_certificate::{FromRead, Record, RecordReader, RecordWriter, ToWrite};
use pg_fen::{Diagram, Length};
use pg_san::{Games, read_games};
use std::alloc::{AllocError, Global};
use std::fs;

// A problem, all its solutions, and a certificate.
#[derive(Drop)]
pub(crate) struct Case {
    pub(crate) diagram: Diagram,
    pub(crate) length: Length,
    pub(crate) games: Games,
    pub(crate) bytes: Vec<u8>,
    // Where each record begins, and at last where the certificate ends.
    pub(crate) starts: Vec<usize>,
}

impl Case {
    // The bytes of the record with this index; none where there is no such record.
    pub(crate) fn record(&self, index: usize) -> &[u8] {
        part(
            self.bytes.as_slice(),
            self.start(index),
            self.start(index.saturating_add(1)),
        )
    }

    // Where the record with this index begins, and the end of the certificate where there is none.
    pub(crate) fn start(&self, index: usize) -> usize {
        match self.starts.get(index) {
            Some(start) => *start,
            None => self.bytes.len(),
        }
    }

    // How many records it has.
    pub(crate) fn records(&self) -> usize {
        self.starts.len().saturating_sub(1)
    }
}

// The bytes from one place up to another; none where they do not stand so.
pub(crate) fn part(bytes: &[u8], from: usize, to: usize) -> &[u8] {
    match bytes.get(from..to) {
        Some(part) => part,
        None => &[],
    }
}

// How many bytes a record takes.
fn spelled(alloc: Global, record: &Record) -> usize {
    let mut sink = ToWrite::new(Vec::new(alloc));
    let mut writer = RecordWriter::new();
    let _ = writer.put_record(record, &mut sink);
    let _ = writer.finish(&mut sink);
    sink.into_inner().len()
}

// Where each record begins behind the header, and the end.
fn starts_of(alloc: Global, bytes: &[u8]) -> Result<Vec<usize>, AllocError> {
    let mut starts = Vec::new(alloc);
    let mut source = FromRead::new(bytes);
    let mut reader = RecordReader::new();
    let _ = reader.header(&mut source);
    let mut at = 37usize;
    starts.push(at)?;
    for _ in 0..bytes.len() {
        let Ok(record) = reader.next_record(&mut source) else {
            return Ok(starts);
        };
        at = at.saturating_add(spelled(alloc, &record));
        starts.push(at)?;
    }
    Ok(starts)
}

// Reads a case from its three files: `NAME.problem` has the diagram and the length, each on a line,
// `NAME.games` the list and `NAME.pgc` the certificate.
pub(crate) fn read_case(rt: &HostRuntime, name: &str) -> anyhow::Result<Case> {
    let problem = fs::read_to_string(rt, format!(in rt.alloc(); "{name}.problem")?)?;
    let list = fs::read_to_string(rt, format!(in rt.alloc(); "{name}.games")?)?;
    let bytes = fs::read(rt, format!(in rt.alloc(); "{name}.pgc")?)?;
    let mut lines = problem.as_str().lines();
    let (Some(diagram), Some(length)) = (lines.next(), lines.next()) else {
        return Err(Refusal::Text)?;
    };
    let diagram = Diagram::read(diagram).map_err(|_| Refusal::Text)?;
    let length = Length::read(length).map_err(|_| Refusal::Text)?;
    let games = read_games(rt.alloc(), list.as_str()).map_err(|_| Refusal::Text)?;
    let starts = starts_of(rt.alloc(), bytes.as_slice())?;
    Ok(Case {
        diagram,
        length,
        games,
        bytes,
        starts,
    })
}
