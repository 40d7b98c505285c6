//! A test of a policy that is read and printed.

use policy_print::print;
use policy_text::read;
use std::test::Fail;

// A line of each kind: types that contexts declare, names in any order and twice, `*`, spaces, a comment, a blank line.
const WRITTEN: &str = "# a policy
policy 1
context  u:r:a
type b
attribute some b a
dontaudit a self file write read
context u:r:c
neverallow * b security *
auditallow some * port getattr

neverallow a some process wait fork wait
version
allow a b file *
withhold some self dir search
version
transition a b file c
member * some dir a
version
";

const PRINTED: &str = "policy 1
type a
type b
type c
context u:r:a
context u:r:c
attribute some b a
neverallow * b security load_policy
neverallow a some process fork wait
dontaudit a self file read write
auditallow some * port getattr
version
allow a b file read write append create unlink getattr relabelfrom relabelto
withhold some self dir search
version
transition a b file c
member * some dir a
version
";

#[test]
fn a_policy_is_printed(rt: HostRuntime) -> Result<(), Fail> {
    let policy = read(rt.alloc(), WRITTEN.as_bytes())?;
    let piece = print(rt.alloc(), &policy).or(Err("out of memory"))?;
    assert_eq!(rt; piece.as_bytes(), PRINTED.as_bytes());
    Ok(())
}
