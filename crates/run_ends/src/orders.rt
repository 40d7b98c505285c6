//! Tests of threaded runs whose order is forced: before each line its worker is held until the line that goes before it was reached.

use access_vectors::Decider;
use epoch_gate::Seat;
use flask_io::{MemorySink, MemorySource};
use flask_sid::Word;
use flaskd_run::{Status, Stops, flaskd};
use gate_rule::Journal;
use std::alloc::Global;
use std::hint::spin_loop;
use std::sync::Wait;
use std::sync::atomic::{AtomicBool, AtomicU64, Ordering};
use std::test::Fail;
use std::thread::Threads;

/// How often a held worker looks before it gives up.
const TURNS: u32 = 100_000_000;

/// The administrator, where a line's worker is told by a client's number.
const ADMINISTRATOR: u8 = 255;

/// Holds each worker until it is its line's turn, and notes which lines began and which answered, by one bit a line from the first line of
/// the run on.
#[derive(Drop)]
struct Order<'h> {
    lines: &'h [u32],
    text: &'h [u8],
    first: u32,
    begun: AtomicU64,
    answered: AtomicU64,
    is_broken: AtomicBool,
}

impl<'h> Order<'h> {
    /// Of a session whose first line that runs has this number. The lines stand in the order in which they have to go.
    fn new(text: &'h [u8], first: u32, lines: &'h [u32]) -> Order<'h> {
        Order {
            lines,
            text,
            first,
            begun: AtomicU64::new(0),
            answered: AtomicU64::new(0),
            is_broken: AtomicBool::new(false),
        }
    }

    /// The bit of a line. Each of the 64 lines from the first one on has one, and no other line has.
    fn bit(&self, line: u32) -> u64 {
        1u64.checked_shl(line.wrapping_sub(self.first)).unwrap_or(0)
    }

    fn has_answered(&self, line: u32) -> bool {
        self.answered.load(Ordering::SeqCst) & self.bit(line) != 0
    }

    /// The line that goes before a line, if there is one.
    fn line_before(&self, line: u32) -> Option<u32> {
        let place = self.lines.iter().position(|other| *other == line)?;
        self.lines.get(place.checked_sub(1)?).copied()
    }

    fn wait_for(&self, line: u32) {
        for _ in 0..TURNS {
            if self.has_answered(line) {
                return;
            }
            spin_loop();
        }
        self.is_broken.store(true, Ordering::SeqCst);
    }

    /// Notes a line among others. The order is broken where it stands there already, and where another worker than its own tells of it.
    fn note(&self, lines: &AtomicU64, client: u8, line: u32) {
        let bit = self.bit(line);
        let found = lines.fetch_or(bit, Ordering::SeqCst);
        let is_of_administrator = line_at(self.text, line).starts_with(b"admin ");
        if found & bit != 0 || (client == ADMINISTRATOR) != is_of_administrator {
            self.is_broken.store(true, Ordering::SeqCst);
        }
    }

    /// Whether so many lines began and answered, each once and told by its own worker, and no worker gave up.
    fn was_kept(&self, lines: u32) -> bool {
        let all = 1u64.checked_shl(lines).unwrap_or(0).wrapping_sub(1);
        self.begun.load(Ordering::SeqCst) == all
            && self.answered.load(Ordering::SeqCst) == all
            && !self.is_broken.load(Ordering::SeqCst)
    }
}

/// The line with a number, from 1, and no byte where there is none.
fn line_at(text: &[u8], number: u32) -> &[u8] {
    text.split(|b| *b == b'\n')
        .nth((number as usize).wrapping_sub(1))
        .unwrap_or(&[])
}

impl Stops for Order<'_> {
    fn before<R>(&self, _rt: &R, client: u8, line: u32) {
        if let Some(earlier) = self.line_before(line) {
            self.wait_for(earlier);
        }
        self.note(&self.begun, client, line);
    }

    fn after<R, V: Journal<D>, D: Decider>(
        &self,
        _rt: &R,
        client: u8,
        line: u32,
        _seat: &Seat<V, D>,
    ) {
        self.note(&self.answered, client, line);
    }

    fn past<R>(&self, _rt: &R, client: u8, line: u32) {
        self.note(&self.answered, client, line);
    }
}

/// A right to read is taken while the file is open: lines 12 to 16 run.
const CHANGE: &[u8] = b"policy 1
context u:r:t
version
allow t t dir search
allow t t file read
version
allow t t dir search
session
file /a u:r:t hello
client alice u:r:t
run
alice file open 0 /a r
admin notify 1
admin update 8
admin ack
alice file read 0 0 16
";

/// The read comes behind the change.
const READ_LAST: &[u8] = b"history file
12 alice file 0 done
notice 1 1
ack 1
16 alice file 1 denied file read
history process
notice 1 1
ack 1
history port
notice 1 1
ack 1
calls 2 denied 1 changes 1
";

/// The file is opened behind the change too, against the order of the text.
const ALL_LAST: &[u8] = b"history file
notice 1 1
ack 1
12 alice file 1 denied file read
16 alice file 1 badslot
history process
notice 1 1
ack 1
history port
notice 1 1
ack 1
calls 2 denied 1 changes 1
";

/// Runs a session on threads in an order.
fn run<R: Threads + Wait + Sync>(
    rt: &R,
    alloc: Global,
    text: &[u8],
    order: &Order<'_>,
) -> (Status, MemorySink<'static>) {
    let words = [Word::new(b"threads")];
    let mut source = MemorySource::new(text, &[]);
    let mut sink = MemorySink::new(alloc, &[]);
    let status = flaskd(rt, alloc, &words, &mut source, &mut sink, order);
    (status, sink)
}

#[test]
fn a_read_behind_the_change_is_denied(rt: HostRuntime) -> Result<(), Fail> {
    let lines = [12, 13, 14, 15, 16];
    let order = Order::new(CHANGE, 12, &lines);
    let (status, sink) = run(&rt, rt.alloc(), CHANGE, &order);
    assert_eq!(rt; status, Status::Ok);
    assert_eq!(rt; sink.bytes(), READ_LAST);
    assert!(rt; order.was_kept(5));
    Ok(())
}

#[test]
fn a_client_that_comes_late_finds_the_new_policy(rt: HostRuntime) -> Result<(), Fail> {
    let lines = [13, 14, 15, 12, 16];
    let order = Order::new(CHANGE, 12, &lines);
    let (status, sink) = run(&rt, rt.alloc(), CHANGE, &order);
    assert_eq!(rt; status, Status::Ok);
    assert_eq!(rt; sink.bytes(), ALL_LAST);
    assert!(rt; order.was_kept(5));
    Ok(())
}

#[test]
fn a_day_in_another_order(rt: HostRuntime) -> Result<(), Fail> {
    let order = Order::new(DAY, 61, DAY_ORDER);
    let (status, sink) = run(&rt, rt.alloc(), DAY, &order);
    assert_eq!(rt; status, Status::Ok);
    assert!(rt; order.was_kept(54));
    assert_eq!(rt; sink.bytes(), DAY_ANSWER);
    Ok(())
}

/// A day of a web server, a mail server, a user and a backup, under three versions of a policy: lines 61 to 114 run.
const DAY: &[u8] = b"policy 1
context sys:object_r:root_t
context sys:object_r:web_t
context sys:object_r:mail_t
context sys:object_r:secret_t
context sys:object_r:tmp_t
context sys:object_r:http_port_t
context sys:object_r:smtp_port_t
context web:srv_r:httpd_t
context mail:srv_r:smtpd_t
context ann:user_r:user_t
context ops:adm_r:backup_t
type cgi_t
type upload_t
attribute daemon httpd_t smtpd_t
attribute objects root_t web_t mail_t secret_t tmp_t upload_t
neverallow user_t secret_t file read write
auditallow backup_t secret_t file read
version
allow * objects dir search read getattr
allow daemon tmp_t dir add_name
allow httpd_t web_t file read getattr
allow httpd_t upload_t file create read write append
transition httpd_t tmp_t file upload_t
allow smtpd_t mail_t file read append
allow backup_t objects file read getattr
allow httpd_t http_port_t port name_bind recv
allow smtpd_t smtp_port_t port name_bind recv
allow user_t http_port_t port connect send getattr
allow httpd_t self process fork
transition httpd_t httpd_t process cgi_t
allow httpd_t cgi_t process transition signal exit wait
allow backup_t cgi_t process ptrace getattr
version
allow * objects dir search read getattr
allow httpd_t web_t file read getattr
allow smtpd_t mail_t file read append
allow backup_t objects file read getattr
withhold backup_t secret_t file read
allow httpd_t http_port_t port name_bind recv
allow user_t http_port_t port connect getattr
allow httpd_t cgi_t process signal exit wait
version
allow * objects dir search read getattr
session
audit
initial port sys:object_r:root_t
port 80 sys:object_r:http_port_t
port 25 sys:object_r:smtp_port_t
dir /www sys:object_r:web_t
file /www/index sys:object_r:web_t welcome
dir /mail sys:object_r:mail_t
file /mail/ann sys:object_r:mail_t m1;
file /key sys:object_r:secret_t k9
dir /tmp sys:object_r:tmp_t
client httpd web:srv_r:httpd_t
client smtpd mail:srv_r:smtpd_t
client ann ann:user_r:user_t
client backup ops:adm_r:backup_t
run
httpd file open 0 /www/index r
httpd file read 0 0 64
httpd file create /tmp/u1
httpd file open 1 /tmp/u1 rwa
httpd file append 1 abc
httpd file write 1 1 XY
httpd file read 1 0 16
smtpd file open 0 /mail/ann ra
smtpd file append 0 m2;
ann file open 0 /www/index r
ann file list /www 0
backup file open 0 /key r
backup file read 0 0 8
backup file stat /mail/ann
httpd port bind 0 80 br
smtpd port bind 0 80 br
smtpd port bind 0 25 b
ann port connect 0 80 cs
ann port push 0 GET
ann port send 80 PUT
httpd port recv 0
httpd process fork 12
backup process attach 0 12
backup process poke 0 7
ann process fork 12
httpd file begin
admin notify 1
httpd file open 2 /tmp/u1 r
ann port push 0 GET2
admin update 100
admin ack
httpd file read 1 0 16
httpd file end
admin ack
httpd file read 1 0 16
httpd file read 0 0 64
backup file read 0 0 8
backup process peek 0
httpd process exit 12 0
httpd process wait 12
backup process detach 0
admin notify 0
admin update 100
admin ack
httpd file read 2 0 16
ann port push 0 GET3
smtpd file give 0 backup 5
admin notify 2
admin update 1
admin ack
admin update 100
admin ack
httpd port recv 0
ann file list / 0
";

/// Another order of the day, in which each script keeps its own: clients wait for one another, so that none could be run to its end
/// before the next begins, and one holds a pass while the policy changes.
const DAY_ORDER: &[u32] = &[
    70, 68, 69, 61, 71, 62, 72, 63, 64, 65, 66, 67, 76, 73, 75, 78, 79, 77, 81, 74, 82, 86, 83, 88,
    87, 84, 80, 90, 91, 85, 92, 89, 93, 97, 94, 95, 98, 102, 101, 96, 107, 103, 106, 104, 108, 99,
    109, 100, 114, 105, 110, 111, 112, 113,
];

/// What is printed of the day in this order; `tests/judge` finds it lawful.
const DAY_ANSWER: &[u8] = b"history file
70 ann file 0 denied file read
68 smtpd file 0 done
69 smtpd file 0 done
61 httpd file 0 done
71 ann file 0 names 1 index
62 httpd file 0 data 7 welcome
72 backup file 0 done
63 httpd file 0 done
64 httpd file 0 done
65 httpd file 0 done
66 httpd file 0 done
67 httpd file 0 data 3 aXY
73 backup file 0 data 2 k9
74 backup file 0 stat sys:object_r:mail_t 6
88 httpd file 0 done
notice 1 1
92 httpd file 0 data 3 aXY
97 backup file 1 denied file read
ack 1
95 httpd file 1 denied file read
notice 2 0
96 httpd file 2 data 7 welcome
107 smtpd file 2 denied file append
ack 2
notice 3 2
114 ann file 3 names 4 key mail tmp www
105 httpd file 3 denied file read
ack 3
history process
82 httpd process 0 done
83 backup process 0 done
notice 1 1
84 backup process 1 denied process ptrace
ack 1
85 ann process 1 denied process fork
98 backup process 1 denied process ptrace
notice 2 0
101 backup process 2 done
ack 2
notice 3 2
99 httpd process 3 denied process exit
100 httpd process 3 denied process wait
ack 3
history port
76 smtpd port 0 denied port name_bind
75 httpd port 0 done
78 ann port 0 done
79 ann port 0 done
77 smtpd port 0 done
81 httpd port 0 data 3 GET
notice 1 1
80 ann port 1 denied port send
ack 1
89 ann port 1 denied port send
notice 2 0
106 ann port 2 done
ack 2
notice 3 2
ack 3
113 httpd port 3 denied port name_bind
audit httpd 95 denied web:srv_r:httpd_t web:object_r:upload_t file read policy 1
audit httpd 99 denied web:srv_r:httpd_t web:srv_r:cgi_t process exit policy 3
audit httpd 100 denied web:srv_r:httpd_t web:srv_r:cgi_t process wait policy 3
audit httpd 105 denied web:srv_r:httpd_t web:object_r:upload_t file read policy 3
audit httpd 113 denied web:srv_r:httpd_t sys:object_r:http_port_t port name_bind policy 3
audit smtpd 76 denied mail:srv_r:smtpd_t sys:object_r:http_port_t port name_bind policy 0
audit smtpd 107 denied ops:adm_r:backup_t sys:object_r:mail_t file append policy 2
audit ann 70 denied ann:user_r:user_t sys:object_r:web_t file read policy 0
audit ann 80 denied ann:user_r:user_t sys:object_r:http_port_t port send policy 1
audit ann 85 denied ann:user_r:user_t ann:user_r:user_t process fork policy 1
audit ann 89 denied ann:user_r:user_t sys:object_r:http_port_t port send policy 1
audit backup 72 granted ops:adm_r:backup_t sys:object_r:secret_t file read policy 0
audit backup 73 granted ops:adm_r:backup_t sys:object_r:secret_t file read policy 0
audit backup 84 denied ops:adm_r:backup_t web:srv_r:cgi_t process ptrace policy 1
audit backup 97 denied ops:adm_r:backup_t sys:object_r:secret_t file read policy 1
audit backup 98 denied ops:adm_r:backup_t web:srv_r:cgi_t process ptrace policy 1
calls 40 denied 14 changes 3
";
