//! The job `certificates`: problems of 4.0 to 7.0 moves that a search settles, with certificates of 4 to 200 KB.
//! Each certificate is checked, explained along two lines and shown as a page, and a copy of version 1 is upgraded.
use crate::dice::Dice;
use crate::digest::Digest;
use crate::fault::Fault;
use crate::games::{Game, Manner, any_move, play};
use crate::settled::{Came, RECORDS, settle};
use crate::texts::put_line;
use pg_certificate::format::MOST_NAMED;
use pg_certificate::{FromRead, Header, Record, RecordReader, RecordWriter};
use pg_guide::why;
use pg_page::{Caption, page};
use pg_position::Move;
use pg_report::{
    Bound, Captures, Games, Opened, PawnFiles, Promotions, Source, ToWrite, open, run_check,
    upgrade,
};
use pg_travel::{Rows, TravelByRows};
use std::alloc::Global;

// How many nodes a search visits at most, and how many bytes a certificate has at least.
const MOST: u64 = 60_000;

const LEAST: usize = 4_000;

// How many expanded nodes a page has at most.
const PAGE_NODES: u64 = 20_000;

// A problem and its certificate, as texts and bytes that a stranger sends.
#[derive(Drop)]
struct Sent {
    diagram: String,
    length: String,
    games: String,
    bytes: Vec<u8>,
}

fn sent_of(alloc: Global, game: &Game, found: &Games, bytes: Vec<u8>) -> anyhow::Result<Sent> {
    let Some(length) = game.length() else {
        return Err(Fault::NoAnswer("length"))?;
    };
    let mut games = String::new(alloc);
    for number in 0..found.len() {
        if let Some(listed) = found.game(number) {
            put_line(alloc, listed, &mut games)?;
        }
    }
    Ok(Sent {
        diagram: String::from_str(alloc, game.diagram().write().as_str())?,
        length: String::from_str(alloc, length.write().as_str())?,
        games,
        bytes,
    })
}

// A stranger's certificate, whose header is read.
fn opened_from<S: Source>(source: &mut S) -> anyhow::Result<Opened> {
    match open(source) {
        Ok(opened) => Ok(opened),
        Err(_) => Err(Fault::NoAnswer("open"))?,
    }
}

fn check_sent(
    alloc: Global,
    sent: &Sent,
    bounds: &[Box<dyn Bound>],
    digest: &mut Digest,
) -> anyhow::Result<()> {
    let mut out = ToWrite::new(Vec::new(alloc));
    let answer = run_check(
        alloc,
        sent.diagram.as_str(),
        sent.length.as_str(),
        sent.games.as_str(),
        bounds,
        &mut FromRead::new(sent.bytes.as_slice()),
        &mut out,
        RECORDS,
        MOST_NAMED,
    );
    if answer.is_err() {
        return Err(Fault::NoAnswer("check"))?;
    }
    digest.text(out.into_inner().as_slice());
    Ok(())
}

fn explain_sent(
    alloc: Global,
    sent: &Sent,
    bounds: &[Box<dyn Bound>],
    line: &[Move],
    digest: &mut Digest,
) -> anyhow::Result<()> {
    let mut moves = String::new(alloc);
    put_line(alloc, line, &mut moves)?;
    let mut source = FromRead::new(sent.bytes.as_slice());
    let mut opened = opened_from(&mut source)?;
    let mut out = ToWrite::new(Vec::new(alloc));
    let answer = why(
        alloc,
        &mut opened,
        moves.as_str(),
        &[],
        bounds,
        &mut source,
        &mut out,
        RECORDS,
        MOST_NAMED,
    );
    if answer.is_err() {
        return Err(Fault::NoAnswer("why"))?;
    }
    digest.text(out.into_inner().as_slice());
    Ok(())
}

fn show_sent(
    alloc: Global,
    sent: &Sent,
    bounds: &[Box<dyn Bound>],
    digest: &mut Digest,
) -> anyhow::Result<()> {
    let mut source = FromRead::new(sent.bytes.as_slice());
    let mut opened = opened_from(&mut source)?;
    let mut out = ToWrite::new(Vec::new(alloc));
    let caption = Caption {
        title: "",
        author: "",
    };
    let answer = page(
        alloc,
        &mut opened,
        &caption,
        PAGE_NODES,
        &[],
        bounds,
        &mut source,
        &mut out,
        RECORDS,
        MOST_NAMED,
    );
    if answer.is_err() {
        return Err(Fault::NoAnswer("page"))?;
    }
    digest.text(out.into_inner().as_slice());
    Ok(())
}

// The records of a certificate of version 2 as one of version 1, each cut by prices as one by travel: an upgrade
// asks only how a certificate is spelled.
fn first_version(alloc: Global, bytes: &[u8]) -> anyhow::Result<Vec<u8>> {
    let mut source = FromRead::new(bytes);
    let mut reader = RecordReader::new();
    let mut sink = ToWrite::new(Vec::new(alloc));
    let mut writer = RecordWriter::new();
    let header = reader.header(&mut source)?;
    writer.header(
        &Header {
            version: 1,
            ..header
        },
        &mut sink,
    )?;
    for _ in 0..RECORDS {
        if !reader.more(&mut source)? {
            break;
        }
        let record = reader.next_record(&mut source)?;
        match &record {
            Record::Priced { .. } => writer.put_cut(4, &mut sink)?,
            record => writer.put_record(record, &mut sink)?,
        }
    }
    writer.finish(&mut sink)?;
    Ok(sink.into_inner())
}

fn upgrade_sent(alloc: Global, bytes: &[u8], digest: &mut Digest) -> anyhow::Result<()> {
    let old = first_version(alloc, bytes)?;
    let mut out = ToWrite::new(Vec::new(alloc));
    match upgrade(&mut FromRead::new(old.as_slice()), &mut out, RECORDS) {
        Ok(records) => digest.number(records),
        Err(_) => return Err(Fault::NoAnswer("upgrade"))?,
    }
    digest.text(out.into_inner().as_slice());
    Ok(())
}

// A line that leaves the game after some of its plies and goes on for up to three moves.
fn other_line(alloc: Global, dice: &mut Dice, game: &Game) -> anyhow::Result<Vec<Move>> {
    let kept = dice.below(game.moves.len());
    let mut line = Vec::new(alloc);
    for m in game.moves.as_slice().iter().take(kept) {
        line.push(*m)?;
    }
    let mut at = match game.before.as_slice().get(kept) {
        Some(position) => *position,
        None => game.end,
    };
    for _ in 0..3u8.min(game.plies().saturating_sub(kept.min(128) as u8)) {
        if let Some((m, next)) = any_move(alloc, dice, &at)? {
            line.push(m)?;
            at = next;
        }
    }
    Ok(line)
}

// All that is asked of one certificate.
fn asked(
    alloc: Global,
    dice: &mut Dice,
    game: &Game,
    sent: &Sent,
    digest: &mut Digest,
) -> anyhow::Result<()> {
    // The four bounds, as the program hands them in.
    let mut bounds: Vec<Box<dyn Bound>> = Vec::new(alloc);
    bounds.push(Box::new(alloc, Captures)?)?;
    bounds.push(Box::new(alloc, Promotions)?)?;
    bounds.push(Box::new(alloc, PawnFiles)?)?;
    let rows = Rows::new(&game.diagram());
    bounds.push(Box::new(alloc, TravelByRows { rows })?)?;
    let bounds = bounds.as_slice();
    check_sent(alloc, sent, bounds, digest)?;
    explain_sent(alloc, sent, bounds, game.moves.as_slice(), digest)?;
    let line = other_line(alloc, dice, game)?;
    if *line.as_slice() != *game.moves.as_slice() {
        explain_sent(alloc, sent, bounds, line.as_slice(), digest)?;
    }
    show_sent(alloc, sent, bounds, digest)?;
    upgrade_sent(alloc, sent.bytes.as_slice(), digest)
}

// One problem; how many bytes its certificate has, if it is one of those that are asked.
fn problem(
    alloc: Global,
    dice: &mut Dice,
    game: &Game,
    digest: &mut Digest,
) -> anyhow::Result<u64> {
    let Some(length) = game.length() else {
        return Err(Fault::NoAnswer("length"))?;
    };
    match settle(alloc, &game.diagram(), length, MOST, digest)? {
        Came::Settled { games, bytes } if bytes.len() >= LEAST => {
            let count = bytes.len() as u64;
            let sent = sent_of(alloc, game, &games, bytes)?;
            asked(alloc, dice, game, &sent, digest)?;
            Ok(count)
        }
        _ => Ok(0),
    }
}

// Problems until their certificates have `size` bytes.
pub(crate) fn run(
    alloc: Global,
    dice: &mut Dice,
    size: u64,
    digest: &mut Digest,
) -> anyhow::Result<()> {
    let mut bytes = 0u64;
    for _ in 0..u64::MAX {
        if bytes >= size {
            break;
        }
        let plies = 8 + dice.below(7).min(100) as u8;
        let game = play(alloc, dice, Manner::Composed, plies)?;
        bytes = bytes
            .saturating_add(problem(alloc, dice, &game, digest)?)
            .saturating_add(10);
    }
    Ok(())
}
