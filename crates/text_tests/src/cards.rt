//! Cards and a pair file that `bench/desk_vectors` made, and what of such isn't taken; days of the calendar.
use crate::told::is_told;
use desk_texts::{Day, check_digits, day_in, day_text, is_place, print, read_sheet};
use std::alloc::{AllocError, Global};
use std::test::Fail;

const CARD: &[u8] = b"express card 1 1024 16 79 2 94258\n\
    leader leader.example.org:7000 34599\n\
    helper [2001:db8::7]:7001 56416\n\
    address 00112233445566778899aabbccddeeff 17718\n\
    address ffffffffffffffffffffffffffffffff 93222\n";

const DATED: &[u8] = b"express card 2 1024 16 79 1 2027-03-01 65809\n\
    leader leader.example.org:7000 32685\n\
    helper [2001:db8::7]:7001 07812\n\
    address 00112233445566778899aabbccddeeff 22104\n";

const PAIR: &[u8] = b"express pair 1 64 4096 15 16 255 98163\n\
    leader 10.0.0.1:7000 30607\n\
    helper 10.0.0.2:65535 71202\n";

// Whether a sheet is read, and printed as it was.
fn is_read(alloc: Global, text: &[u8]) -> Result<bool, Fail> {
    let sheet = read_sheet(alloc, text)?;
    let again = print(alloc, &sheet)?;
    Ok(again.as_slice() == text)
}

// What a sheet says with its check digits, or its fault.
fn sheet_told(alloc: Global, text: &[u8], told: &mut String) -> Result<(), Fail> {
    match read_sheet(alloc, text) {
        Ok(sheet) => {
            let (leader, helper) = (sheet.leader.as_str(), sheet.helper.as_str());
            let addresses = sheet.addresses.as_slice();
            let digits = check_digits(alloc, &sheet)?;
            write!(
                told,
                "{digits}: {:?} {leader} {helper} {addresses:?}\n",
                sheet.head
            )?;
        }
        Err(fault) => write!(told, "{fault}\n")?,
    }
    Ok(())
}

fn sheets_told(alloc: Global, texts: &[&[u8]]) -> Result<String, Fail> {
    let mut told = String::new(alloc);
    for text in texts {
        sheet_told(alloc, text, &mut told)?;
    }
    Ok(told)
}

// A card of each form, a pair file with other ends of its lines, one with a wrong line and one that lacks its
// last, and no text.
const SHEETS: [&[u8]; 6] = [
    CARD,
    DATED,
    b"express pair 1 64 4096 15 16 255 98163\r\nleader 10.0.0.1:7000 30607 \nhelper 10.0.0.2:65535 71202",
    b"express pair 1 64 4096 15 16 255 98163\nleader 10.0.0.2:7000 30607\nhelper 10.0.0.2:65535 71202\n",
    b"express pair 1 64 4096 15 16 255 98163\nleader 10.0.0.1:7000 30607\n",
    b"",
];

const READ: &str =
    "93222: Card(CardHead { width: 1024, from: 16, to: 79, addresses: 2, until: None }) \
    leader.example.org:7000 [2001:db8::7]:7001 [88962710306127702866241727433142015, \
    340282366920938463463374607431768211455]\n\
    22104: Card(CardHead { width: 1024, from: 16, to: 79, addresses: 1, \
    until: Some(Day { year: 2027, month: 3, day: 1 }) }) \
    leader.example.org:7000 [2001:db8::7]:7001 [88962710306127702866241727433142015]\n\
    71202: Pair(PairHead { width: 64, boxes: 4096, lane: 15, from: 16, to: 255 }) \
    10.0.0.1:7000 10.0.0.2:65535 []\n\
    bad line 2\nbad line 3\nbad line 1\n";

#[test]
fn sheets(rt: HostRuntime) -> Result<(), Fail> {
    assert!(rt;
        is_read(rt.alloc(), CARD)? && is_read(rt.alloc(), DATED)? && is_read(rt.alloc(), PAIR)?
    );
    is_told(sheets_told(rt.alloc(), &SHEETS), READ)
}

// A card in a letter, one with a wrong line there, a text without one, one that is quoted, a pair file whose
// last line goes on, and a card that lasts until 29 February 2027.
const PASTED: [&[u8]; 6] = [
    b"Dear friend,\r\nthis is our card:\r\n\r\nexpress card 2 1024 16 79 1 2027-03-01 65809  \r\n\
    leader leader.example.org:7000 32685\r\nhelper [2001:db8::7]:7001 07812\r\n\
    address 00112233445566778899aabbccddeeff 22104\r\n\r\nAs ever\r\n",
    b"Dear friend,\nthis is our card:\n\nexpress card 2 1024 16 79 1 2027-03-01 65809\n\
    leader leader.example.org:7000 32685\nhelper [2001:db8::7]:7002 07812\n",
    b"Dear friend,\nthis is no card.\n",
    b"> express card 2 1024 16 79 1 2027-03-01 65809\n",
    b"express pair 1 64 4096 15 16 255 98163\nleader 10.0.0.1:7000 30607\n\
    helper 10.0.0.2:65535 71202 as ever\n",
    b"\nexpress card 2 1024 16 79 1 2027-02-29 32722\nleader leader.example.org:7000 32685\n",
];

const FOUND: &str = "22104: Card(CardHead { width: 1024, from: 16, to: 79, addresses: 1, \
    until: Some(Day { year: 2027, month: 3, day: 1 }) }) \
    leader.example.org:7000 [2001:db8::7]:7001 [88962710306127702866241727433142015]\n\
    bad line 6\nbad line 1\nbad line 1\nbad line 3\nbad line 2\n";

#[test]
fn texts_with_sheets(rt: HostRuntime) -> Result<(), Fail> {
    is_told(sheets_told(rt.alloc(), &PASTED), FOUND)
}

#[test]
fn places(rt: HostRuntime) {
    assert!(rt; is_place(b"a:1") && !is_place(b"a:0") && !is_place(b"A:1") && !is_place(b":1"));
}

// Moments and their days by GNU date, and the last second of the year 9999 with one behind it.
const MOMENTS: [u64; 8] = [
    0,
    951_782_399,
    951_782_400,
    1_795_996_800,
    4_107_542_399,
    4_107_542_400,
    253_402_300_799,
    253_402_300_800,
];

fn days_told(alloc: Global, moments: &[u64]) -> Result<String, Fail> {
    let mut told = String::new(alloc);
    for seconds in moments {
        let day = Day::of(*seconds);
        let (text, later) = (day_text(alloc, &day)?, day_text(alloc, &day.in_a_year())?);
        write!(
            told,
            "{text} {later} {}\n",
            day_in(text.as_bytes()) == Some(day)
        )?;
    }
    Ok(told)
}

const DAYS: &str =
    "1970-01-01 1971-01-01 true\n2000-02-28 2001-02-28 true\n2000-02-29 2001-02-28 true\n\
    2026-11-30 2027-11-30 true\n2100-02-28 2101-02-28 true\n2100-03-01 2101-03-01 true\n\
    9999-12-31 9999-12-31 true\n9999-12-31 9999-12-31 true\n";

fn is_later(day: &Day, other: &Day) -> bool {
    day.is_after(other) && !other.is_after(day) && !day.is_after(day)
}

#[test]
fn days(rt: HostRuntime) -> Result<(), Fail> {
    is_told(days_told(rt.alloc(), &MOMENTS), DAYS)?;
    for text in [
        b"2027-02-29",
        b"2027-00-01",
        b"2027-13-01",
        b"2027-04-31",
        b"2027-4-010",
        b"2027/04/01",
    ] {
        assert!(rt; day_in(text.as_slice()).is_none());
    }
    assert!(rt; day_in(b"2027-03-01 ").is_none() && day_in(b"2027-03-0").is_none());
    let (new_year, march) = (
        Day {
            year: 2027,
            month: 1,
            day: 31,
        },
        Day {
            year: 2027,
            month: 3,
            day: 1,
        },
    );
    assert!(rt;
        march.is_day()
            && !Day {
                year: 2027,
                month: 2,
                day: 29
            }
            .is_day()
    );
    assert!(rt; is_later(&march, &new_year) && is_later(&Day::LAST, &march));
    Ok(())
}
