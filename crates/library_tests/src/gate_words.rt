//! A test of packed words.

use access_vectors::{Class, Vector};
use flask_sid::Sid;
use row_words::{gate_word, row_place, row_word, split_gate, split_row};
use std::test::Fail;

#[test]
fn packed_words(rt: HostRuntime) -> Result<(), Fail> {
    assert_eq!(rt; gate_word(1, 2, 3), 0x0000_1020_0000_0003);
    assert_eq!(rt; split_gate(17_729_624_997_891), (1, 2, 3));
    let source = Sid::of(2).ok_or("source")?;
    let target = Sid::of(3).ok_or("target")?;
    let read = Vector::empty().with(0);
    assert_eq!(rt;
        row_word(1, source, target, Class::File, read),
        0x0000_1002_0031_0001
    );
    assert_eq!(rt;
        split_row(17_600_779_190_273),
        Some((1, source, target, Class::File, read))
    );
    assert_eq!(rt; split_row(0), None);
    assert_eq!(rt; row_place(source, target, Class::File), 84);
    Ok(())
}
