//! Records with prices, written and read again.

use super::*;
use pg_trial::OneByte;

// Some records: prices by travel, a cut, prices by pawn files, in three ways, and of no numbers.
const SOME: &str =
    "060400010303 010000 000202 0204 060300010808 00*3 01 00*7 01 00*3 01 060401030201 010203 040506 0708ff 060900010000";

// Writes the header and the records that are read.
fn copy(rt: &impl Abort, bytes: &[u8], sink: &mut impl Sink) {
    let mut source = FromRead::new(bytes);
    let mut reader = RecordReader::new();
    let mut writer = RecordWriter::new();
    let header = reader.header(&mut source).expect(rt, "a header");
    assert_eq!(rt; header.version, 2);
    assert!(rt; writer.header(&header, sink).is_ok());
    for _ in 0..5u8 {
        let record = reader.next_record(&mut source).expect(rt, "a record");
        assert!(rt; writer.put_record(&record, sink).is_ok());
    }
    assert!(rt; reader.end(&mut source).is_ok());
    assert!(rt; writer.finish(sink).is_ok());
}

#[test]
fn priced_records_are_written(rt: HostRuntime) {
    let bytes = spelled(&rt, "2", SOME);
    let mut sink = ToWrite::new(Vec::new(rt.alloc()));
    copy(&rt, bytes.as_slice(), &mut sink);
    assert!(rt; sink.into_inner().as_slice() == bytes.as_slice());
    let mut sink = ToWrite::new(OneByte::new(Vec::new(rt.alloc())));
    copy(&rt, bytes.as_slice(), &mut sink);
    assert!(rt; sink.into_inner().into_inner().as_slice() == bytes.as_slice());
}
