//! What is put into a line.

use poke_base::{Line, code_bytes, put_bytes, put_dec, put_hex, put_text};

#[test]
#[tactic(auto, using(poke_base::proofs::Numbers::line_room))]
fn numbers_and_bytes_are_spelt(rt: HostRuntime) {
    let hexadecimal: [(u64, &[u8]); 3] = [
        (0, b"0"),
        (0x0040_1000, b"401000"),
        (u64::MAX, b"ffffffffffffffff"),
    ];
    for (number, spelling) in hexadecimal {
        let mut line = Line::new();
        put_hex(&mut line, number);
        assert_eq!(rt; line.as_slice(), spelling);
    }
    let decimal: [(u64, &[u8]); 3] = [(0, b"0"), (10, b"10"), (u64::MAX, b"18446744073709551615")];
    for (number, spelling) in decimal {
        let mut line = Line::new();
        put_dec(&mut line, number);
        assert_eq!(rt; line.as_slice(), spelling);
    }
    let mut line = Line::new();
    put_text(&mut line, b"w ");
    put_bytes(&mut line, &[0xcc, 0x0f, 0]);
    assert_eq!(rt; line.as_slice(), b"w cc0f00".as_slice());
    assert_eq!(rt;
        code_bytes(0xeb, &[0x10]).as_slice(),
        [0xeb, 0x10].as_slice()
    );
}
