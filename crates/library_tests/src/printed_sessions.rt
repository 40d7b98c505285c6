//! A test of a session that is read and printed.

use session_print::print;
use session_text::read;
use std::test::Fail;

// A line of each kind, with an `initial` line left out, leading zeros, spaces, comments and blank lines.
const WRITTEN: &str = "# a session
policy 1
context u:r:a
context u:r:b
version
allow a b file write read

session
client ann u:r:a
dir /d u:r:b
file /d/empty u:r:a
file  /d/full u:r:b  #1
port 00080 u:r:b
client bob u:r:b
audit
initial port u:r:b
run

# files
ann file begin
ann file mkdir /x
ann file create /x/y.z
ann file open 1 /x/y.z rwa
ann file read 1 0 1024
ann file write 1 065536 a
ann file append 1 b
ann file close 1
ann file unlink /x/y.z
ann file list / 4096
ann file stat /x
ann file relabel /x u:r:b
ann file give 1 bob 63
ann file end
bob process fork 1
bob process exec 1 u:r:a
bob process signal 1 64
bob process exit 1 255
bob process wait 1
bob process attach 0 65535
bob process peek 0
bob process poke 0 4294967295
bob process detach 0
bob process stat 65535
ann port bind 2 80 br
ann port recv 2
ann port connect 3 80 cs
ann port push 3 ##
ann port send 80 x
ann port unbind 2
ann port stat 80
  admin notify 0
admin update 007
admin ack
admin   force
";

const PRINTED: &str = "policy 1
type a
type b
context u:r:a
context u:r:b
version
allow a b file read write
session
initial root u:r:a
initial port u:r:b
port 80 u:r:b
audit
dir /d u:r:b
file /d/empty u:r:a
file /d/full u:r:b #1
client ann u:r:a
client bob u:r:b
run
ann file begin
ann file mkdir /x
ann file create /x/y.z
ann file open 1 /x/y.z rwa
ann file read 1 0 1024
ann file write 1 65536 a
ann file append 1 b
ann file close 1
ann file unlink /x/y.z
ann file list / 4096
ann file stat /x
ann file relabel /x u:r:b
ann file give 1 bob 63
ann file end
bob process fork 1
bob process exec 1 u:r:a
bob process signal 1 64
bob process exit 1 255
bob process wait 1
bob process attach 0 65535
bob process peek 0
bob process poke 0 4294967295
bob process detach 0
bob process stat 65535
ann port bind 2 80 br
ann port recv 2
ann port connect 3 80 cs
ann port push 3 ##
ann port send 80 x
ann port unbind 2
ann port stat 80
admin notify 0
admin update 7
admin ack
admin force
";

#[test]
fn a_session_is_printed(rt: HostRuntime) -> Result<(), Fail> {
    let session = read(rt.alloc(), WRITTEN.as_bytes())?;
    let piece = print(rt.alloc(), &session).or(Err("out of memory"))?;
    assert_eq!(rt; piece.as_bytes(), PRINTED.as_bytes());
    Ok(())
}
