//! Numbers that are read from words.

use poke_base::{read_dec, read_hex};

#[test]
fn words_of_digits_are_read(rt: HostRuntime) {
    let hexadecimal: [(&[u8], Option<u64>); 8] = [
        (b"", None),
        (b"0", Some(0)),
        (b"ff", Some(0xff)),
        (b"FF", Some(0xff)),
        (b"ffffffffffffffff", Some(u64::MAX)),
        (b"00000000000000001", None),
        (b"g", None),
        (b"0x1", None),
    ];
    for (word, number) in hexadecimal {
        assert_eq!(rt; read_hex(word), number);
    }
    let decimal: [(&[u8], Option<u64>); 7] = [
        (b"", None),
        (b"0", Some(0)),
        (b"18446744073709551615", Some(u64::MAX)),
        (b"18446744073709551616", None),
        (b"000000000000000000001", None),
        (b"+1", None),
        (b"00000000000000000001", Some(1)),
    ];
    for (word, number) in decimal {
        assert_eq!(rt; read_dec(word), number);
    }
}
