//! Texts that are numerals, and some that aren't.

use numeral_read::{read_dec, read_hex};

const DECIMAL: [(&str, Option<u64>); 6] = [
    ("0", Some(0)),
    ("65660", Some(65660)),
    ("18446744073709551615", Some(u64::MAX)),
    ("18446744073709551616", None),
    ("007", None),
    ("", None),
];

const HEXADECIMAL: [(&str, Option<u64>); 5] = [
    ("0x0", Some(0)),
    ("0x1007c", Some(0x1007c)),
    ("0x1007C", None),
    ("0x", None),
    ("10", None),
];

fn decimals_are_read() -> bool {
    for (text, number) in DECIMAL.iter() {
        if read_dec(text.as_bytes()) != *number {
            return false;
        }
    }
    true
}

fn hexadecimals_are_read() -> bool {
    for (text, number) in HEXADECIMAL.iter() {
        if read_hex(text.as_bytes()) != *number {
            return false;
        }
    }
    true
}

#[test]
fn numbers_of_texts(rt: HostRuntime) {
    assert!(rt; decimals_are_read());
    assert!(rt; hexadecimals_are_read());
}
