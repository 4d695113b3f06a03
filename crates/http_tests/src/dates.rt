// Dates beside those of the RFC and of other programs.
use date_words::{date_text_of_micros, http_date_text, second_of_date};

/// Seconds since 1970, and their dates.
const DATES: &[(u64, &[u8; 29])] = &[
    (0, b"Thu, 01 Jan 1970 00:00:00 GMT"),
    (784_111_777, b"Sun, 06 Nov 1994 08:49:37 GMT"),
    (951_782_400, b"Tue, 29 Feb 2000 00:00:00 GMT"),
    (1_700_000_000, b"Tue, 14 Nov 2023 22:13:20 GMT"),
    (253_402_300_799, b"Fri, 31 Dec 9999 23:59:59 GMT"),
];

#[test]
fn dates_are_those_of_the_rfc_and_of_other_programs(rt: HostRuntime) {
    for (second, date) in DATES {
        let last_micros = second.saturating_mul(1_000_000).saturating_add(999_999);
        assert_eq!(rt; http_date_text(*second), Some(**date), "at {second}");
        assert_eq!(rt; date_text_of_micros(last_micros), **date, "at {second}");
        assert_eq!(rt;
            second_of_date(date.as_slice()),
            Some(*second),
            "at {second}"
        );
    }
}

#[test]
fn the_year_9999_is_the_last(rt: HostRuntime) {
    assert_eq!(rt; http_date_text(253_402_300_800), None);
    assert_eq!(rt;
        date_text_of_micros(u64::MAX),
        *b"Fri, 31 Dec 9999 23:59:59 GMT"
    );
}
