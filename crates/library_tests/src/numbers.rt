//! A test of numbers, written and read.

use flask_sid::{Text, Word};
use std::test::Fail;
use text_lines::{numeral, put_number};

#[test]
fn numbers_are_written_and_read(rt: HostRuntime) -> Result<(), Fail> {
    for (written, number) in [("0", 0), ("10", 10), ("4294967295", 4_294_967_295)] {
        let mut out = Text::new(rt.alloc());
        put_number(&mut out, number).or(Err("out of memory"))?;
        assert_eq!(rt; out.as_bytes(), written.as_bytes());
        assert_eq!(rt; numeral(&Word::new(out.as_bytes())), Some(number));
    }
    Ok(())
}
