//! How many records were checked, as a page says it.

use crate::shared::text_of;
use pg_certificate::ToWrite;
use pg_page::write_checked;
use std::process::Abort;

// Records and named nodes, and what is written.
const CHECKED: &str = "9 0 => What was checked: a certificate of 9 records with 0
10 9 => What was checked: a certificate of 10 records with 9
99999 10 => What was checked: a certificate of 99999 records with 10
100000 99999 => What was checked: a certificate of 100000 records with 99999
1234567 100000 => What was checked: a certificate of 1234567 records with 100000
18446744073709551615 4294967295 => What was checked: a certificate of 18446744073709551615 records with 4294967295";

// What is written for these numbers.
fn check<R: Abort + AllocGlobal>(rt: &R, row: &str) {
    let (numbers, wanted) = row.split_once(" => ").expect(rt, row);
    let (records, named) = numbers.split_once(' ').expect(rt, row);
    let mut out = ToWrite::new(Vec::new(rt.alloc()));
    let records = records.parse::<u64>().expect(rt, row);
    let named = named.parse::<u32>().expect(rt, row);
    assert!(rt; write_checked(records, named, &mut out).is_ok());
    let written = out.into_inner();
    assert_eq!(rt; text_of(rt, written.as_slice()), wanted);
}

#[test]
fn numbers_of_records(rt: HostRuntime) {
    for row in CHECKED.lines() {
        check(&rt, row);
    }
}
