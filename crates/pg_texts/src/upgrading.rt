//! Certificates of version 1, copied as certificates of version 2.
ghost use Rattle.std.specs.Prelude.{◌≡◌, ◌+◌, ◌*◌, ◌≤◌, ℕ, List, [], false, true, length, IfOk, IfErr, OnOk, IfSome};
ghost use Rattle.std.specs.Prelude.{IsTrue, ◌↔◌, Ok};
ghost use Rattle.std.specs.Io.KnownBytes.{Appends, Consumes, IsAtEnd, Keeps};
ghost use Rattle.pg_certificate.specs.Reader.{to_come};
ghost use Rattle.pg_certificate.specs.Reading.{more_at};
ghost use Rattle.pg_certificate.specs.Spelling.{header_length, longest_record, record_of, spelling};
ghost use Rattle.pg_certificate.specs.Writer.{written, RefusesOnce};
ghost use Rattle.pg_certificate.specs.declared.record.Record.TheVariants as Record;
ghost use Rattle.pg_texts.specs.inner.Copying.{Copies, CopiesOne, IsCopying, one_in};
ghost use Rattle.pg_texts.specs.Upgrade.{IsUpgraded, IsUpgradeFault, Takes, upgrade_fault_of, records_in, upgrade_of};

use crate::fault::UpgradeFault;
use pg_board::Color;
use pg_certificate::{
    Bare, Header, ReadFault, Record, RecordReader, RecordWriter, Sink, Source, WriteFault,
};
use pg_price_lists::Prices;

// A refusal to read, as one to upgrade.
fn fault_of(fault: ReadFault) -> UpgradeFault
    ensures { result ≡ upgrade_fault_of fault }
{
    match fault {
        ReadFault::Truncated | ReadFault::Trailing => UpgradeFault::Truncated,
        ReadFault::Magic => UpgradeFault::NotVersion1,
        ReadFault::UnknownRecord(byte) => UpgradeFault::UnknownRecord(byte),
        ReadFault::Read | ReadFault::Failed => UpgradeFault::Read,
    }
}

// Writes a cut by prices, which no certificate of version 1 has: a function of its own, since its record has some 400
// bytes.
#[inline(never)]
fn put_priced<W: Sink>(
    code: u8,
    color: Color,
    prices: &Prices,
    writer: &mut RecordWriter,
    out: &mut W,
) -> Result<(), WriteFault>
    ensures bytes { OnOk result (Appends
        (written (W.held out.old) writer.old) (written (W.held out.new) writer.new)
        (spelling (Record.Priced code color prices.now))) }
    ensures refuses { RefusesOnce writer.old.failed writer.new.failed (W.has_failed out.new) result }
{
    let node = Record::Priced {
        code,
        color,
        prices: *prices,
    };
    writer.put_record(&node, out)
}

// Writes a record whose price lists, where it has any, stand elsewhere.
fn put_bare<W: Sink>(
    said: &Bare,
    prices: &Prices,
    writer: &mut RecordWriter,
    out: &mut W,
) -> Result<(), WriteFault>
    ensures bytes { OnOk result (Appends
        (written (W.held out.old) writer.old) (written (W.held out.new) writer.new)
        (spelling (record_of prices.now said.now))) }
    ensures refuses { RefusesOnce writer.old.failed writer.new.failed (W.has_failed out.new) result }
{
    match said {
        Bare::Expand { named } => writer.put_expansion(*named, out),
        Bare::Cut(code) => writer.put_cut(*code, out),
        Bare::Ref(number) => writer.put_reference(*number, out),
        Bare::Priced { code, color } => put_priced(*code, *color, prices, writer, out),
    }
}

// Copies the record at the front of the bytes to come. There is room for its price lists, if it had any.
fn copy_record<R: Source, W: Sink>(
    reader: &mut RecordReader,
    source: &mut R,
    prices: &mut Prices,
    writer: &mut RecordWriter,
    out: &mut W,
) -> Result<(), UpgradeFault>
    requires { IsCopying reader.old writer.old }
    ensures copied { OnOk result (CopiesOne
        (to_come reader.old (R.left source.old)) (to_come reader.new (R.left source.new))
        (written (W.held out.old) writer.old) (written (W.held out.new) writer.new)) }
    ensures copying { OnOk result (IsCopying reader.new writer.new) }
    ensures held { length reader.new.held ≤ 4096 }
    ensures err { IfErr result (λ e. IsUpgradeFault one_in (to_come reader.old (R.left source.old))
        (R.has_failed source.new) (W.has_failed out.new) e) }
    ensures takes { Takes (longest_record + 4096) (to_come reader.old (R.left source.old)) (R.left source.new) result }
{
    let said = match reader.next_bare(prices, source) {
        Ok(said) => said,
        Err(fault) => return Err(fault_of(fault)),
    };
    match put_bare(&said, prices, writer, out) {
        Ok(()) => Ok(()),
        Err(_) => Err(UpgradeFault::Write),
    }
}

// Copies the records to the end of the bytes; how many they are.
fn copy_records<R: Source, W: Sink>(
    reader: &mut RecordReader,
    source: &mut R,
    writer: &mut RecordWriter,
    out: &mut W,
    max_records: u64,
) -> Result<u64, UpgradeFault>
    requires copying { IsCopying reader.old writer.old }
    requires held { length reader.old.held ≤ 4096 }
    ensures copied { IfOk result (λ n. Copies n
        (to_come reader.old (R.left source.old)) (to_come reader.new (R.left source.new))
        (written (W.held out.old) writer.old) (written (W.held out.new) writer.new)) }
    ensures few { IfOk result (λ n. n ≤ max_records) }
    ensures answer { IfOk result (λ n. IfSome (to_come reader.old (R.left source.old))
        (λ bytes. records_in max_records bytes ≡ Ok n)) }
    ensures end { OnOk result (IsAtEnd (to_come reader.new (R.left source.new))) }
    ensures runs { OnOk result (R.has_failed source.new ≡ false) }
    ensures copying { OnOk result (IsCopying reader.new writer.new) }
    ensures err { IfErr result (λ e. IsUpgradeFault (records_in max_records) (to_come reader.old (R.left source.old))
        (R.has_failed source.new) (W.has_failed out.new) e) }
    ensures takes { Takes (longest_record * max_records + 4096) (to_come reader.old (R.left source.old))
        (R.left source.new) result }
{
    // Room for the price lists of one record, which a record of version 1 does not have.
    let mut prices = Prices::new(&[], &[]).unwrap();
    let mut count = 0;
    'records: loop {
        match reader.more(source) {
            Ok(true) => {}
            Ok(false) => return Ok(count),
            Err(fault) => return Err(fault_of(fault)),
        }
        if count == max_records {
            return Err(UpgradeFault::Budget);
        }
        match copy_record(reader, source, &mut prices, writer, out) {
            Ok(()) => {}
            Err(fault) => return Err(fault),
        }
        count += 1;
    }
}

/// Copies a certificate of version 1 as one of version 2, and answers how many records it has: the
/// header with the digit 2 for the digit 1, and then every record as it stood, to the end of the
/// source. It checks how the certificate is spelled, and not what it proves. At most
/// `37 + 390 * max_records + 4,096` bytes are taken from a source that has not failed. Takes no
/// memory.
///
/// # Errors
/// `Truncated` where there are fewer than 37 bytes, or where they end inside a record; `NotVersion1`
/// where there are 37 that begin with no header of version 1; `UnknownRecord` at the first byte that
/// no record of version 1 can have at its place; `Budget` where a byte is left behind `max_records`
/// records; `Read` where the source has failed; `Write` where the sink has failed. What was written
/// before a refusal is to be thrown away.
pub fn upgrade<R: Source, W: Sink>(
    source: &mut R,
    out: &mut W,
    max_records: u64,
) -> Result<u64, UpgradeFault>
    ensures upgraded { IfOk result (λ n. (old : List ℕ) × (new : List ℕ) × IsUpgraded old new n
        × Consumes (R.left source.old) (R.left source.new) old
        × Appends (W.held out.old) (W.held out.new) new) }
    ensures few { IfOk result (λ n. n ≤ max_records) }
    ensures end { OnOk result (IsAtEnd (R.left source.new)) }
    ensures runs { OnOk result (R.has_failed source.new ≡ false) }
    ensures answer { IfOk result (λ n. IfSome (R.left source.old) (λ bytes. upgrade_of max_records bytes ≡ Ok n)) }
    ensures err { IfErr result (λ e. IsUpgradeFault (upgrade_of max_records) (R.left source.old)
        (R.has_failed source.new) (W.has_failed out.new) e) }
    ensures takes { Takes (header_length + longest_record * max_records + 4096)
        (R.left source.old) (R.left source.new) result }
{
    let mut reader = RecordReader::new();
    let mut writer = RecordWriter::new();
    let header = match reader.header(source) {
        Ok(header) => header,
        Err(fault) => return Err(fault_of(fault)),
    };
    if header.version != 1 {
        return Err(UpgradeFault::NotVersion1);
    }
    let second = Header {
        version: 2,
        ..header
    };
    match writer.header(&second, out) {
        Ok(()) => {}
        Err(_) => return Err(UpgradeFault::Write),
    }
    let count = match copy_records(&mut reader, source, &mut writer, out, max_records) {
        Ok(count) => count,
        Err(fault) => return Err(fault),
    };
    match writer.finish(out) {
        Ok(()) => Ok(count),
        Err(_) => Err(UpgradeFault::Write),
    }
}
