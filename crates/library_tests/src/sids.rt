//! A test of the first number past the last identifier.

use flask_sid::{Context, InternFault, MOST_CONTEXTS, SidTable};
use std::alloc::Global;
use std::test::Fail;

/// The context of a type that is named by a number's four last digits.
fn numbered(alloc: Global, n: usize) -> Result<Context, Fail> {
    let digit = |place: usize| -> u8 { (n / place % 10) as u8 + b'0' };
    let text = [
        b'u',
        b':',
        b'r',
        b':',
        b't',
        digit(1_000),
        digit(100),
        digit(10),
        digit(1),
    ];
    Ok(Context::read(alloc, &text)?)
}

#[test]
fn a_full_table_still_gives_the_old_identifiers(rt: HostRuntime) -> Result<(), Fail> {
    let mut table = SidTable::new(rt.alloc());
    assert!(rt; table.is_empty());
    for n in 0..MOST_CONTEXTS {
        let sid = table.intern(numbered(rt.alloc(), n)?)?;
        assert_eq!(rt; usize::from(sid.number()), n + 1);
    }
    for (n, number) in [
        (0, Ok(1)),
        (4_094, Ok(4_095)),
        (4_095, Err(InternFault::Full)),
    ] {
        let given = table.intern(numbered(rt.alloc(), n)?);
        assert_eq!(rt; given.map(|sid| sid.number()), number);
    }
    assert_eq!(rt; table.len(), 4_095);
    let last = numbered(rt.alloc(), 4_094)?;
    let sid = table.find(&last).ok_or("a kept context")?;
    let found = table.context(sid).ok_or("a number that was given")?;
    assert!(rt; *found == last);
    Ok(())
}
