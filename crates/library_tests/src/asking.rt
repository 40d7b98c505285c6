//! Tests of the names in the table of classes, and of a question.

ghost use Rattle.std.specs.Prelude.{◌≡◌, ◌<◌};

use access_vectors::perms::FILE_READ;
use access_vectors::{
    Asked, Asker, Class, Decider, Perm, Plainly, Questions, Vector, ask, class_name, class_of,
    perm_name, perm_of,
};
use flask_sid::Sid;
use std::test::Fail;

/// A decider of two versions, in which the vector is the version's number.
#[derive(Drop)]
struct ByVersion;

impl Decider for ByVersion {
    ghost use Rattle.std.specs.Prelude.{◌≡◌, ℕ, ◌<◌, ◌&&◌, nat_lt, IsTrue};
    ghost use Rattle.std.proofs.Common.{rules, arith};
    ghost use Rattle.std.proofs.lemmas.Bool.Decides.{nat_tests};

    ghost decides = { λ decider. record {
      versions = 2;
      known = λ s. nat_lt 0 s && nat_lt s 4096;
      vector = λ version s t class. version;
      label = λ version s t class. t;
      member = λ version s t class. s;
    } };

    fn versions(&self) -> u16 {
        2
    }

    fn vector(&self, ver: u8, _s: Sid, _t: Sid, _c: Class) -> Vector {
        Vector::of(u16::from(ver))
    }

    fn label(&self, _ver: u8, _s: Sid, t: Sid, _c: Class) -> Sid {
        t
    }

    fn member(&self, _ver: u8, s: Sid, _t: Sid, _c: Class) -> Sid {
        s
    }

    ghost closed = { λ decider. record {
      some_version = Prim.omega arith;
      few_versions = Prim.omega arith;
      sids = λ s known. Prim.grind (arith, nat_tests);
      vectors = λ version s t class below source target. Prim.omega arith;
      labels = λ version s t class below source target. target;
      members = λ version s t class below source target. source;
    } };
}

#[test]
fn names_are_those_of_the_table(rt: HostRuntime) -> Result<(), Fail> {
    for (class, name, count, last) in [
        (Class::File, "file", 8, "relabelto"),
        (Class::Dir, "dir", 8, "relabelto"),
        (Class::Process, "process", 7, "getattr"),
        (Class::Port, "port", 5, "getattr"),
        (Class::Security, "security", 1, "load_policy"),
    ] {
        assert_eq!(rt; class_name(class), name);
        assert_eq!(rt; class_of(name.as_bytes()), Some(class));
        let perm = Perm::of(class, count - 1).ok_or("no such place")?;
        assert_eq!(rt; perm_name(perm), last);
        assert_eq!(rt; perm_of(class, last.as_bytes()), Some(perm));
        assert_eq!(rt; Perm::of(class, count), None);
    }
    assert_eq!(rt; class_of(b"socket"), None);
    assert_eq!(rt; perm_of(Class::Port, b"read"), None);
    Ok(())
}

#[test]
fn a_question_is_asked_and_kept(rt: HostRuntime) -> Result<(), Fail> {
    let sid = Sid::of(7).ok_or("a number in range")?;
    let decider = ByVersion;
    for ver in [0, 1] {
        let mut asker = Plainly::new(&decider, ver);
        let mut asked = Questions::new(rt.alloc());
        let yes = ask(&mut asker, &mut asked, sid, sid, FILE_READ)?;
        assert_eq!(rt; yes, ver == 1);
        let copy = asked.copy(rt.alloc())?;
        assert_eq!(rt; copy.len(), 1);
        assert_eq!(rt; asker.asks(), 1);
    }
    Ok(())
}
