//! The header and the records of a certificate, written to a sink.
ghost use Rattle.std.specs.Prelude.{◌≡◌, ◌<◌, [], ◌∷◌, ◌++◌, length, true, false, OnOk};
ghost use Rattle.std.specs.Io.KnownBytes.{Keeps};
ghost use Rattle.pg_certificate.specs.Spelling.{spelling, header_spelling, prices_spelling, IsVersion};
ghost use Rattle.pg_certificate.specs.Writer.{written, RefusesOnce, Writes};
ghost use Rattle.pg_certificate.specs.declared.record.Record.TheVariants.{Expand, Cut, Ref};

use crate::fault::WriteFault;
use crate::format::{CUT, EXPAND, NAMED, PRICED, REF};
use crate::outline::color_byte;
use crate::record::{Header, Record};
use crate::source::{CAPACITY, Refused, Sink};
use pg_price_lists::Prices;
use std::marker::Model;

/// Writes a certificate: its header first, then its records, and `finish` last. The writer holds up
/// to 4,096 bytes before it pushes them, so each call is to be given the same sink.
///
/// Contracts see the bytes that it holds and whether it has refused. What is written is the bytes
/// of the sink and then those that it holds. After any refusal every call answers Failed and leaves
/// the sink as it is.
#[derive(Drop)]
pub struct RecordWriter {
    buffer: [u8; CAPACITY],
    end: usize,
    failed: bool,
}

// What is held is the first `end` bytes. The buffer counts as full once a call has refused, so a
// byte that has room may be kept with no other test.
impl Model for RecordWriter {
    ghost use Rattle.std.specs.Prelude.{◌≡◌, ◌≤◌, true, take};
    ghost use Rattle.pg_certificate.specs.Writer.{WriterState};

    ghost Value = { WriterState };

    ghost view = { λ w. record { held = take w.end w.buffer; failed = w.failed } };

    ghost invariant = { λ w. (w.end ≤ 4096) × (w.failed ≡ true → w.end ≡ 4096) };
}

impl RecordWriter {
    /// A writer that holds no byte and has not refused.
    pub fn new() -> RecordWriter
        ensures held { result.held ≡ [] }
        ensures failed { result.failed ≡ false }
    {
        RecordWriter {
            buffer: [0; CAPACITY],
            end: 0,
            failed: false,
        }
    }

    /// Writes the header, 37 bytes. It is called first, and once.
    ///
    /// # Errors
    /// Write where the sink has failed. Failed after any refusal.
    pub fn header<W: Sink>(&mut self, header: &Header, sink: &mut W) -> Result<(), WriteFault>
        requires { IsVersion header.now.version }
        ensures { Writes W.held W.has_failed (header_spelling header.now) self.old self.new sink.old sink.new result }
    {
        self.bytes(b"PGC", sink)?;
        self.byte(b'0' + header.version, sink)?;
        self.byte(header.plies, sink)?;
        self.bytes(&header.diagram, sink)
    }

    /// Writes a record. It is to be one of the header's version.
    ///
    /// # Errors
    /// Write where the sink has failed. Failed after any refusal.
    pub fn put_record<W: Sink>(&mut self, node: &Record, sink: &mut W) -> Result<(), WriteFault>
        ensures { Writes W.held W.has_failed (spelling node.now) self.old self.new sink.old sink.new result }
    {
        match node {
            Record::Expand { named } => self.put_expansion(*named, sink),
            Record::Cut(code) => self.put_cut(*code, sink),
            Record::Ref(number) => self.put_reference(*number, sink),
            Record::Priced {
                code,
                color,
                prices,
            } => {
                self.byte(PRICED, sink)?;
                self.byte(*code, sink)?;
                self.byte(color_byte(*color), sink)?;
                self.prices(prices, sink)
            }
        }
    }

    /// Writes the record of an expanded node, named or not, as `put_record` does.
    ///
    /// # Errors
    /// As for `put_record`.
    pub fn put_expansion<W: Sink>(&mut self, named: bool, sink: &mut W) -> Result<(), WriteFault>
        ensures { Writes W.held W.has_failed (spelling (Expand named)) self.old self.new sink.old sink.new result }
    {
        match named {
            true => self.byte(NAMED, sink),
            false => self.byte(EXPAND, sink),
        }
    }

    /// Writes the record of a cut by the bound with this code, as `put_record` does.
    ///
    /// # Errors
    /// As for `put_record`.
    #[inline(always)]
    pub fn put_cut<W: Sink>(&mut self, code: u8, sink: &mut W) -> Result<(), WriteFault>
        ensures { Writes W.held W.has_failed (spelling (Cut code)) self.old self.new sink.old sink.new result }
    {
        self.byte(CUT, sink)?;
        self.byte(code, sink)
    }

    /// Writes the record of a reference to the node with this number, as `put_record` does.
    ///
    /// # Errors
    /// As for `put_record`.
    pub fn put_reference<W: Sink>(&mut self, number: u32, sink: &mut W) -> Result<(), WriteFault>
        ensures { Writes W.held W.has_failed (spelling (Ref number)) self.old self.new sink.old sink.new result }
    {
        self.byte(REF, sink)?;
        self.bytes(&number.to_be_bytes(), sink)
    }

    /// Pushes all that is held, so that the sink has the whole certificate.
    ///
    /// # Errors
    /// Write where the sink has failed. Failed after any refusal.
    pub fn finish<W: Sink>(&mut self, sink: &mut W) -> Result<(), WriteFault>
        ensures bytes { OnOk result (Keeps (written (W.held sink.old) self.old) (W.held sink.new)) }
        ensures empty { OnOk result (self.new.held ≡ []) }
        ensures refuses { RefusesOnce self.old.failed self.new.failed (W.has_failed sink.new) result }
        ensures untouched { self.old.failed ≡ true → sink.new ≡ sink.old }
    {
        if self.failed {
            return Err(WriteFault::Failed);
        }
        match sink.push(&self.buffer[..self.end]) {
            Ok(()) => {
                self.end = 0;
                Ok(())
            }
            Err(Refused) => {
                self.end = CAPACITY;
                self.failed = true;
                Err(WriteFault::Write)
            }
        }
    }

    // Holds one byte more.
    fn keep(&mut self, byte: u8)
        requires { length self.old.held < 4096 }
        ensures held { self.new.held ≡ self.old.held ++ byte ∷ [] }
        ensures failed { self.new.failed ≡ self.old.failed }
        ensures runs { self.old.failed ≡ false }
    {
        self.buffer[self.end] = byte;
        self.end += 1;
    }

    // Writes one byte.
    fn byte<W: Sink>(&mut self, byte: u8, sink: &mut W) -> Result<(), WriteFault>
        ensures { Writes W.held W.has_failed (byte ∷ []) self.old self.new sink.old sink.new result }
    {
        if self.end == CAPACITY {
            self.finish(sink)?;
        }
        self.keep(byte);
        Ok(())
    }

    // Writes bytes one after the other.
    fn bytes<W: Sink>(&mut self, bytes: &[u8], sink: &mut W) -> Result<(), WriteFault>
        requires { 0 < length bytes.now }
        ensures { Writes W.held W.has_failed bytes.now self.old self.new sink.old sink.new result }
    {
        for byte in bytes {
            self.byte(*byte, sink)?;
        }
        Ok(())
    }

    // Writes numbers, of which there may be none.
    fn numbers<W: Sink>(&mut self, numbers: &[u8], sink: &mut W) -> Result<(), WriteFault>
        requires { self.old.failed ≡ false }
        ensures { Writes W.held W.has_failed numbers.now self.old self.new sink.old sink.new result }
    {
        if numbers.is_empty() {
            return Ok(());
        }
        self.bytes(numbers, sink)
    }

    // Writes how many price lists there are, how many sources and targets each has, and the lists.
    fn prices<W: Sink>(&mut self, prices: &Prices, sink: &mut W) -> Result<(), WriteFault>
        requires { self.old.failed ≡ false }
        ensures { Writes W.held W.has_failed (prices_spelling prices.now) self.old self.new sink.old sink.new result }
    {
        self.byte(prices.ways() as u8, sink)?;
        self.byte(prices.sources() as u8, sink)?;
        self.byte(prices.targets() as u8, sink)?;
        for way in 0..prices.ways() {
            self.numbers(prices.u(way), sink)?;
            self.numbers(prices.v(way), sink)?;
        }
        Ok(())
    }
}
