//! Puts the lines on permissions, and the versions with their rule lines.

ghost use Rattle.std.specs.Prelude.{◌≡◌, ◌++◌, [], ◌∷◌, OnOk, OnErr};
ghost use Rattle.std.specs.List.{flat_map};
ghost use Rattle.access_vectors.specs.Table.{class_word};
ghost use Rattle.text_print.specs.Printed.{behind, ended, text_of};
ghost use Rattle.text_print.specs.Fronts.{IsFront};
ghost use Rattle.policy_print.specs.Printed;

use access_vectors::{Class, Perm, Vector, class_name, perm_name};
use flask_sid::{Memory, Text};
use policy_model::{Pattern, RuleLine, Verdict, Version, Who, WhoOf};
use text_print::put_word;

fn put_who(out: &mut Text, who: &Who) -> Result<(), Memory>
    ensures ok { OnOk result (out.new ≡ out.old ++ behind (Printed.who_word who.now)) }
    ensures err { OnErr result (IsFront out.old out.new) }
{
    match who {
        WhoOf::Named(name) => put_word(out, name.as_bytes()),
        WhoOf::Any => put_word(out, b"*"),
        WhoOf::Itself => put_word(out, b"self"),
    }
}

// Whom a line speaks of, and of which class.
fn put_subjects(out: &mut Text, source: &Who, target: &Who, class: Class) -> Result<(), Memory>
    ensures ok { OnOk result (out.new ≡ out.old ++ flat_map behind
        (Printed.who_word source.now ∷ Printed.who_word target.now ∷ class_word class ∷ [])) }
    ensures err { OnErr result (IsFront out.old out.new) }
{
    put_who(out, source)?;
    put_who(out, target)?;
    put_word(out, class_name(class).as_bytes())
}

/// Puts the names of the permissions that a vector of a class has, each behind a space.
#[tactic(auto, unfolding(crate::specs::Printed::held_names))]
pub fn put_perms(out: &mut Text, class: Class, perms: Vector) -> Result<(), Memory>
    ensures ok { OnOk result (out.new ≡ out.old ++ flat_map behind (Printed.held_names class perms)) }
    ensures err { OnErr result (IsFront out.old out.new) }
{
    'indexes: for index in 0..class.perm_count() {
        if perms.has(index) {
            if let Some(perm) = Perm::of(class, index) {
                put_word(out, perm_name(perm).as_bytes())?;
            }
        }
    }
    Ok(())
}

fn put_pattern(out: &mut Text, first: &[u8], pattern: &Pattern) -> Result<(), Memory>
    ensures ok { OnOk result (out.new ≡ out.old ++ ended (Printed.pattern_words first.now pattern.now)) }
    ensures err { OnErr result (IsFront out.old out.new) }
{
    out.extend(first)?;
    put_subjects(out, &pattern.source, &pattern.target, pattern.class)?;
    put_perms(out, pattern.class, pattern.perms)?;
    out.push(b'\n')
}

/// Puts a line with this first word for each of these lines on permissions.
pub(crate) fn put_patterns(out: &mut Text, first: &[u8], patterns: &[Pattern]) -> Result<(), Memory>
    ensures ok { OnOk result (out.new ≡ out.old ++ Printed.texts_of (Printed.pattern_words first.now) patterns.now) }
    ensures err { OnErr result (IsFront out.old out.new) }
{
    'patterns: for pattern in patterns {
        put_pattern(out, first, pattern)?;
    }
    Ok(())
}

fn put_verdict_word(out: &mut Text, verdict: &Verdict) -> Result<(), Memory>
    ensures ok { OnOk result (out.new ≡ out.old ++ Printed.verdict_word verdict.now) }
    ensures err { OnErr result (IsFront out.old out.new) }
{
    match verdict {
        Verdict::Allow(_) => out.extend(b"allow"),
        Verdict::Withhold(_) => out.extend(b"withhold"),
        Verdict::Transition(_) => out.extend(b"transition"),
        Verdict::Member(_) => out.extend(b"member"),
    }
}

fn put_verdict(out: &mut Text, class: Class, verdict: &Verdict) -> Result<(), Memory>
    ensures ok { OnOk result (out.new ≡ out.old ++ flat_map behind (Printed.verdict_words class verdict.now)) }
    ensures err { OnErr result (IsFront out.old out.new) }
{
    match verdict {
        Verdict::Allow(perms) | Verdict::Withhold(perms) => put_perms(out, class, *perms),
        Verdict::Transition(kind) | Verdict::Member(kind) => put_word(out, kind.as_bytes()),
    }
}

fn put_rule(out: &mut Text, rule: &RuleLine) -> Result<(), Memory>
    ensures ok { OnOk result (out.new ≡ out.old ++ ended (Printed.rule_words rule.now)) }
    ensures err { OnErr result (IsFront out.old out.new) }
{
    put_verdict_word(out, &rule.verdict)?;
    put_subjects(out, &rule.source, &rule.target, rule.class)?;
    put_verdict(out, rule.class, &rule.verdict)?;
    out.push(b'\n')
}

fn put_rules(out: &mut Text, rules: &[RuleLine]) -> Result<(), Memory>
    ensures ok { OnOk result (out.new ≡ out.old ++ Printed.texts_of Printed.rule_words rules.now) }
    ensures err { OnErr result (IsFront out.old out.new) }
{
    'rules: for rule in rules {
        put_rule(out, rule)?;
    }
    Ok(())
}

fn put_version(out: &mut Text, version: &Version) -> Result<(), Memory>
    ensures ok { OnOk result (out.new ≡ out.old ++ text_of (Printed.version_lines version.now)) }
    ensures err { OnErr result (IsFront out.old out.new) }
{
    out.extend(b"version\n")?;
    put_rules(out, version.rules.as_slice())
}

/// Puts each version: a `version` line, and its rule lines.
pub(crate) fn put_versions(out: &mut Text, versions: &[Version]) -> Result<(), Memory>
    ensures ok { OnOk result (out.new ≡ out.old ++ flat_map (λ version. text_of (Printed.version_lines version)) versions.now) }
    ensures err { OnErr result (IsFront out.old out.new) }
{
    'versions: for version in versions {
        put_version(out, version)?;
    }
    Ok(())
}
