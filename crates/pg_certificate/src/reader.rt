//! The header and the records of a certificate, read from a source.
ghost use Rattle.std.specs.Prelude.{◌≡◌, ◌↔◌, ◌<◌, ◌≤◌, ◌^◌, ◌+◌, ◌*◌, ℕ, List, [], ◌∷◌, ◌++◌, slice_index, length};
ghost use Rattle.std.specs.Prelude.{true, false, IfOk, OnOk, OnErr, IsTrue};
ghost use Rattle.std.specs.Io.KnownBytes.{Keeps, Consumes, IsAtEnd};
ghost use Rattle.std.specs.Int.{w32, to_be_bytes};
ghost use Rattle.pg_certificate.specs.Spelling.{record_of, spelling, header_length, header_spelling, longest_record};
ghost use Rattle.pg_certificate.specs.Spelling.{IsHeader, IsRecord, IsRecordOf, PricesStay};
ghost use Rattle.pg_certificate.specs.Reading.{more_at, byte_at, byte_from, exactly, number_at, outline_at, lists_at};
ghost use Rattle.pg_certificate.specs.Reading.{priced_at, header_at, record_at, end_at};
ghost use Rattle.pg_certificate.specs.inner.Outlines.{IsOutline, AreListsOf, outline_spelling, lists_spelling};
ghost use Rattle.pg_certificate.specs.Reader.{to_come, Reads, ReadsAs, IsCall, Pulls, PullsAtMost};

use crate::fault::ReadFault;
use crate::format::{
    CUT, EXPAND, HEADER_LENGTH, LONGEST_LISTS, MOST_LISTS, MOST_PRICES, NAMED, NUMBER_LENGTH,
    PRICED, REF,
};
use crate::magic::header_of;
use crate::outline::{Outline, color_of, put_prices};
use crate::record::{Bare, Header, Record};
use crate::source::{CAPACITY, Refused, Source};
use pg_price_lists::Prices;
use std::marker::Model;

/// Reads a certificate: its header first, then its records. The reader holds up to 4,096 bytes that
/// it has pulled and not yet read, so each call is to be given the same source.
///
/// Contracts see the bytes that it holds, whether it has refused and by which version it reads
/// records. The bytes to come are those that it holds and then those that are left in the source.
/// After any refusal it holds none, and every call answers Failed and leaves the source as it is.
#[derive(Drop)]
pub struct RecordReader {
    buffer: [u8; CAPACITY],
    start: usize,
    end: usize,
    failed: bool,
    version: u8,
}

// What is held is `buffer[start..end]`. It is empty once a call has refused, so a byte that is held
// may be read with no other test.
impl Model for RecordReader {
    ghost use Rattle.std.specs.Prelude.{◌≡◌, ◌≤◌, true, slice_range};
    ghost use Rattle.pg_certificate.specs.Reader.{ReaderState};

    ghost Value = { ReaderState };

    ghost view = { λ r. record { held = slice_range r.buffer r.start r.end; failed = r.failed; version = r.version } };

    ghost invariant = { λ r. (r.start ≤ r.end) × (r.end ≤ 4096) × (r.failed ≡ true → r.start ≡ r.end) };
}

impl RecordReader {
    /// A reader that holds no byte and has not refused. Until it has read a header it reads records
    /// by version 1.
    pub fn new() -> RecordReader
        ensures held { result.held ≡ [] }
        ensures failed { result.failed ≡ false }
        ensures version { result.version ≡ 1 }
    {
        RecordReader {
            buffer: [0; CAPACITY],
            start: 0,
            end: 0,
            failed: false,
            version: 1,
        }
    }

    /// Reads the header, the first 37 bytes. It is called first, and once: from then on records are
    /// read by its version.
    ///
    /// # Errors
    /// Truncated where fewer than 37 bytes are to come, and otherwise Magic where they begin with
    /// the magic of no version. Read where the source has failed. Failed after any refusal.
    pub fn header<S: Source>(&mut self, source: &mut S) -> Result<Header, ReadFault>
        ensures bytes { Reads header_at
            (to_come self.old (S.left source.old)) (to_come self.new (S.left source.new)) result }
        ensures found { IfOk result (λ h. Consumes
            (to_come self.old (S.left source.old)) (to_come self.new (S.left source.new))
            (header_spelling h)) }
        ensures spelled { IfOk result (λ h. IsHeader h) }
        ensures call { IsCall S.has_failed self.old self.new source.old source.new result }
        ensures pulls { PullsAtMost header_length (to_come self.old (S.left source.old)) (S.left source.new) result }
        ensures version { IfOk result (λ h. self.new.version ≡ h.version) }
    {
        let mut text = [0; HEADER_LENGTH];
        self.exact(&mut text, source)?;
        match header_of(&text) {
            Some(header) => {
                self.version = header.version;
                Ok(header)
            }
            None => {
                self.refuse();
                Err(ReadFault::Magic)
            }
        }
    }

    /// Reads the record at the front of the bytes to come, by the version of the header that was
    /// read.
    ///
    /// # Errors
    /// Truncated where they end inside it or no byte is to come. UnknownRecord at the first byte
    /// that no record of the version can have at its place, as soon as it is read. Read where the
    /// source has failed. Failed after any refusal.
    pub fn next_record<S: Source>(&mut self, source: &mut S) -> Result<Record, ReadFault>
        ensures bytes { Reads (record_at self.old.version)
            (to_come self.old (S.left source.old)) (to_come self.new (S.left source.new)) result }
        ensures found { IfOk result (λ x. Consumes
            (to_come self.old (S.left source.old)) (to_come self.new (S.left source.new))
            (spelling x)) }
        ensures spelled { IfOk result (λ x. IsRecordOf self.old.version x) }
        ensures call { IsCall S.has_failed self.old self.new source.old source.new result }
        ensures pulls { PullsAtMost longest_record (to_come self.old (S.left source.old)) (S.left source.new) result }
        ensures version { self.new.version ≡ self.old.version }
    {
        let mut prices = Prices::new(&[], &[]).unwrap();
        match self.next_bare(&mut prices, source)? {
            Bare::Expand { named } => Ok(Record::Expand { named }),
            Bare::Cut(code) => Ok(Record::Cut(code)),
            Bare::Ref(number) => Ok(Record::Ref(number)),
            Bare::Priced { code, color } => Ok(Record::Priced {
                code,
                color,
                prices,
            }),
        }
    }

    /// Reads the record at the front of the bytes to come as `next_record` does. What it is comes as
    /// a small answer, and the price lists, where it has any, come into `prices`; a record without
    /// them and a refusal leave `prices` as it was.
    ///
    /// # Errors
    /// Those of `next_record`, where it has them.
    #[inline(always)]
    pub fn next_bare<S: Source>(
        &mut self,
        prices: &mut Prices,
        source: &mut S,
    ) -> Result<Bare, ReadFault>
        ensures bytes { ReadsAs (record_of prices.new) (record_at self.old.version)
            (to_come self.old (S.left source.old)) (to_come self.new (S.left source.new)) result }
        ensures found { IfOk result (λ x. Consumes
            (to_come self.old (S.left source.old)) (to_come self.new (S.left source.new))
            (spelling (record_of prices.new x))) }
        ensures spelled { IfOk result (λ x. IsRecordOf self.old.version (record_of prices.new x)) }
        ensures stay { IfOk result (λ x. PricesStay x prices.old prices.new) }
        ensures refused { OnErr result (prices.new ≡ prices.old) }
        ensures call { IsCall S.has_failed self.old self.new source.old source.new result }
        ensures pulls { PullsAtMost longest_record (to_come self.old (S.left source.old)) (S.left source.new) result }
        ensures version { self.new.version ≡ self.old.version }
    {
        match self.byte(source)? {
            EXPAND => Ok(Bare::Expand { named: false }),
            NAMED => Ok(Bare::Expand { named: true }),
            CUT => {
                let code = self.byte(source)?;
                Ok(Bare::Cut(code))
            }
            REF => {
                let number = self.number(source)?;
                Ok(Bare::Ref(number))
            }
            PRICED if self.version == 2 => self.priced(prices, source),
            unknown => {
                self.refuse();
                Err(ReadFault::UnknownRecord(unknown))
            }
        }
    }

    /// Whether a byte is to come. It stays. After a no the source has not failed.
    ///
    /// # Errors
    /// Read where the source has failed. Failed after any refusal.
    pub fn more<S: Source>(&mut self, source: &mut S) -> Result<bool, ReadFault>
        ensures bytes { Reads more_at
            (to_come self.old (S.left source.old)) (to_come self.new (S.left source.new)) result }
        ensures kept { OnOk result (Keeps
            (to_come self.old (S.left source.old)) (to_come self.new (S.left source.new))) }
        ensures end { IfOk result (λ more. more ≡ false → IsAtEnd (to_come self.new (S.left source.new))) }
        ensures call { IsCall S.has_failed self.old self.new source.old source.new result }
        ensures ended { IfOk result (λ more. more ≡ false → S.has_failed source.new ≡ false) }
        ensures pulls { PullsAtMost 0 (to_come self.old (S.left source.old)) (S.left source.new) result }
        ensures version { self.new.version ≡ self.old.version }
    {
        if self.start < self.end {
            return Ok(true);
        }
        self.fill(source)
    }

    /// Answers where no byte is to come: the certificate ends, and the source has not failed.
    ///
    /// # Errors
    /// Trailing where a byte is to come. Read where the source has failed. Failed after any
    /// refusal.
    pub fn end<S: Source>(&mut self, source: &mut S) -> Result<(), ReadFault>
        ensures bytes { ReadsAs (λ _. tt) end_at
            (to_come self.old (S.left source.old)) (to_come self.new (S.left source.new)) result }
        ensures call { IsCall S.has_failed self.old self.new source.old source.new result }
        ensures runs { OnOk result (S.has_failed source.new ≡ false) }
        ensures pulls { PullsAtMost 0 (to_come self.old (S.left source.old)) (S.left source.new) result }
        ensures version { self.new.version ≡ self.old.version }
    {
        if self.more(source)? {
            self.refuse();
            return Err(ReadFault::Trailing);
        }
        Ok(())
    }

    // Drops what is held, and fails from now on.
    fn refuse(&mut self)
        ensures held { self.new.held ≡ [] }
        ensures failed { self.new.failed ≡ true }
        ensures version { self.new.version ≡ self.old.version }
    {
        self.start = self.end;
        self.failed = true;
    }

    // Takes the first byte that is held.
    fn pop(&mut self) -> u8
        requires { 0 < length self.old.held }
        ensures held { self.old.held ≡ result ∷ self.new.held }
        ensures failed { self.new.failed ≡ self.old.failed }
        ensures runs { self.old.failed ≡ false }
        ensures few { length self.new.held ≤ 4096 }
        ensures version { self.new.version ≡ self.old.version }
    {
        let byte = self.buffer[self.start];
        self.start += 1;
        byte
    }

    // Takes as many bytes as `out` has, which are all held.
    fn take(&mut self, out: &mut [u8])
        requires some { 0 < length out.old }
        requires held { length out.old ≤ length self.old.held }
        ensures held { self.old.held ≡ out.new ++ self.new.held }
        ensures fits { (k : ℕ) → k < length out.new → slice_index out.new k < 2 ^ 8 }
        ensures failed { self.new.failed ≡ self.old.failed }
        ensures runs { self.old.failed ≡ false }
        ensures few { length self.new.held ≤ 4096 }
        ensures version { self.new.version ≡ self.old.version }
    {
        let end = self.start + out.len();
        out.copy_from_slice(&self.buffer[self.start..end]);
        self.start = end;
    }

    // Pulls once, where nothing is held, and answers whether a byte came.
    fn fill<S: Source>(&mut self, source: &mut S) -> Result<bool, ReadFault>
        requires { self.old.held ≡ [] }
        ensures reads { Pulls S.left S.has_failed (λ x. x) more_at 0 self.old self.new source.old source.new result }
        ensures kept { OnOk result (Keeps
            (to_come self.old (S.left source.old)) (to_come self.new (S.left source.new))) }
        ensures end { IfOk result (λ more. more ≡ false → IsAtEnd (to_come self.new (S.left source.new))) }
        ensures runs { OnOk result (S.has_failed source.new ≡ false) }
        ensures held { IfOk result (λ more. IsTrue more ↔ 0 < length self.new.held) }
    {
        if self.failed {
            return Err(ReadFault::Failed);
        }
        match source.pull(&mut self.buffer) {
            Ok(count) => {
                self.start = 0;
                self.end = count;
                Ok(count > 0)
            }
            Err(Refused) => {
                self.refuse();
                Err(ReadFault::Read)
            }
        }
    }

    // Reads one byte.
    fn byte<S: Source>(&mut self, source: &mut S) -> Result<u8, ReadFault>
        ensures reads { Pulls S.left S.has_failed (λ x. x) byte_at 1 self.old self.new source.old source.new result }
        ensures text { IfOk result (λ b. Consumes
            (to_come self.old (S.left source.old)) (to_come self.new (S.left source.new))
            (b ∷ [])) }
    {
        if self.start < self.end {
            return Ok(self.pop());
        }
        if !self.fill(source)? {
            self.refuse();
            return Err(ReadFault::Truncated);
        }
        Ok(self.pop())
    }

    // Reads as many bytes as `out` has.
    fn exact<S: Source>(&mut self, out: &mut [u8], source: &mut S) -> Result<(), ReadFault>
        requires { 0 < length out.old }
        ensures reads { Pulls S.left S.has_failed (λ _. out.new) (exactly (length out.old)) (length out.old)
            self.old self.new source.old source.new result }
        ensures text { OnOk result (Consumes
            (to_come self.old (S.left source.old)) (to_come self.new (S.left source.new)) out.new) }
        ensures fits { OnOk result ((k : ℕ) → k < length out.new → slice_index out.new k < 2 ^ 8) }
    {
        if out.len() <= self.end - self.start {
            self.take(out);
            return Ok(());
        }
        for i in 0..out.len() {
            out[i] = self.byte(source)?;
        }
        Ok(())
    }

    // Reads a number of four bytes, most significant byte first.
    fn number<S: Source>(&mut self, source: &mut S) -> Result<u32, ReadFault>
        ensures reads { Pulls S.left S.has_failed (λ x. x) number_at 4 self.old self.new source.old source.new result }
        ensures text { IfOk result (λ n. Consumes
            (to_come self.old (S.left source.old)) (to_come self.new (S.left source.new))
            (to_be_bytes w32 n)) }
    {
        let mut bytes = [0; NUMBER_LENGTH];
        self.exact(&mut bytes, source)?;
        Ok(u32::from_be_bytes([bytes[0], bytes[1], bytes[2], bytes[3]]))
    }

    // Reads one byte, from the least to the most that may stand there. UnknownRecord at any other.
    #[inline(always)]
    fn byte_from<S: Source>(&mut self, least: u8, most: u8, source: &mut S) -> Result<u8, ReadFault>
        ensures reads { Pulls S.left S.has_failed (λ x. x) (byte_from least most) 1
            self.old self.new source.old source.new result }
        ensures text { IfOk result (λ b. Consumes
            (to_come self.old (S.left source.old)) (to_come self.new (S.left source.new))
            (b ∷ [])) }
        ensures within { IfOk result (λ b. (least ≤ b) × (b ≤ most)) }
    {
        let byte = self.byte(source)?;
        if byte < least || most < byte {
            self.refuse();
            return Err(ReadFault::UnknownRecord(byte));
        }
        Ok(byte)
    }

    // Reads what stands before the price lists of a record.
    fn outline<S: Source>(&mut self, source: &mut S) -> Result<Outline, ReadFault>
        ensures reads { Pulls S.left S.has_failed (λ x. x) outline_at 5 self.old self.new source.old source.new result }
        ensures text { IfOk result (λ o. Consumes
            (to_come self.old (S.left source.old)) (to_come self.new (S.left source.new))
            (outline_spelling o)) }
        ensures fits { IfOk result (λ o. IsOutline o) }
    {
        let code = self.byte(source)?;
        let color = self.byte_from(0, 1, source)?;
        let ways = self.byte_from(1, MOST_LISTS as u8, source)?;
        let sources = self.byte_from(0, MOST_PRICES as u8, source)?;
        let targets = self.byte_from(0, MOST_PRICES as u8, source)?;
        Ok(Outline {
            code,
            color: color_of(color),
            ways: ways as usize,
            sources: sources as usize,
            targets: targets as usize,
        })
    }

    // Takes the bytes of the price lists of a record, which are all held, and puts the lists in place
    // of those in `prices`.
    fn take_lists(&mut self, outline: &Outline, prices: &mut Prices)
        requires fits { IsOutline outline.now }
        requires held { outline.now.ways * (outline.now.sources + outline.now.targets) ≤ length self.old.held }
        requires runs { self.old.failed ≡ false }
        ensures held { self.old.held ≡ lists_spelling prices.new ++ self.new.held }
        ensures fits { AreListsOf outline.now prices.new }
        ensures failed { self.new.failed ≡ false }
        ensures few { length self.new.held ≤ 4096 }
        ensures version { self.new.version ≡ self.old.version }
    {
        let end = self.start + outline.ways * (outline.sources + outline.targets);
        put_prices(&self.buffer[self.start..end], outline, prices);
        self.start = end;
    }

    // Reads the price lists of a record in place of those in `prices`.
    fn lists<S: Source>(
        &mut self,
        outline: &Outline,
        prices: &mut Prices,
        source: &mut S,
    ) -> Result<(), ReadFault>
        requires fits { IsOutline outline.now }
        requires runs { self.old.failed ≡ false }
        requires few { length self.old.held ≤ 4096 }
        ensures bytes { ReadsAs (λ _. prices.new) (lists_at outline.now)
            (to_come self.old (S.left source.old)) (to_come self.new (S.left source.new)) result }
        ensures text { OnOk result (Consumes
            (to_come self.old (S.left source.old)) (to_come self.new (S.left source.new))
            (lists_spelling prices.new)) }
        ensures fits { OnOk result (AreListsOf outline.now prices.new) }
        ensures refused { OnErr result (prices.new ≡ prices.old) }
        ensures call { IsCall S.has_failed self.old self.new source.old source.new result }
        ensures pulls { PullsAtMost (3 * (64 + 64)) (to_come self.old (S.left source.old)) (S.left source.new) result }
        ensures version { self.new.version ≡ self.old.version }
    {
        let count = outline.ways * (outline.sources + outline.targets);
        if count <= self.end - self.start {
            self.take_lists(outline, prices);
            return Ok(());
        }
        let mut room = [0; LONGEST_LISTS];
        let bytes = &mut room[..count];
        self.exact(bytes, source)?;
        put_prices(bytes, outline, prices);
        Ok(())
    }

    // Reads a priced record after its first byte, its lists into `prices`.
    #[inline(never)]
    fn priced<S: Source>(&mut self, prices: &mut Prices, source: &mut S) -> Result<Bare, ReadFault>
        requires { self.old.failed ≡ false }
        ensures reads { Pulls S.left S.has_failed (record_of prices.new) priced_at (5 + 3 * (64 + 64))
            self.old self.new source.old source.new result }
        ensures text { IfOk result (λ x. (l : List ℕ) × (spelling (record_of prices.new x) ≡ 6 ∷ l) × Consumes
            (to_come self.old (S.left source.old)) (to_come self.new (S.left source.new)) l) }
        ensures fits { IfOk result (λ x. IsRecord (record_of prices.new x)) }
        ensures stay { IfOk result (λ x. PricesStay x prices.old prices.new) }
        ensures refused { OnErr result (prices.new ≡ prices.old) }
    {
        let outline = self.outline(source)?;
        self.lists(&outline, prices, source)?;
        Ok(Bare::Priced {
            code: outline.code,
            color: outline.color,
        })
    }
}
