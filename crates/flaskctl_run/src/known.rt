//! What the words of a command name in a policy.

use crate::stop::Stop;
use crate::values::{Value, sentence};
use access_vectors::{Class, Perm, class_of, perm_of};
use fault_causes::{
    CLASSES, joined, nearest, permission_names, put_all, put_listed, put_no_class,
    put_no_permission, text_of,
};
use flask_sid::{Memory, Word, context_form};
use policy_model::{AttributeLine, PolicyParts, PolicyText};
use std::alloc::Global;
use text_lines::numeral;

/// The version of a number, counted from 0.
pub(crate) fn version_of(alloc: Global, policy: &PolicyText, word: &str) -> Result<u8, Stop> {
    let count = policy.parts().versions.len();
    if let Some(number) = numeral(&Word::new(word.as_bytes())) {
        if let Ok(version) = u8::try_from(number) {
            if usize::from(version) < count {
                return Ok(version);
            }
        }
    }
    Err(Stop::Usage(sentence(
        alloc,
        &[
            Value::Text("the policy has no version '"),
            Value::Text(word),
            Value::Text("': it has "),
            Value::Number(count as u64),
            Value::Text(", counted from 0"),
        ],
    )?))
}

/// The name of a declared type.
pub(crate) fn type_of<'w>(
    alloc: Global,
    policy: &PolicyText,
    word: &'w str,
) -> Result<&'w [u8], Stop> {
    let parts = policy.parts();
    if is_type(parts, word.as_bytes()) {
        return Ok(word.as_bytes());
    }
    Err(Stop::Usage(no_type(alloc, parts, word)?))
}

fn is_type(policy: &PolicyParts, name: &[u8]) -> bool {
    'types: for kind in policy.kinds.as_slice() {
        if kind.name.as_bytes() == name {
            return true;
        }
    }
    false
}

/// What is said of a word that names no type.
fn no_type(alloc: Global, policy: &PolicyParts, word: &str) -> Result<String, Memory> {
    if let Some(attribute) = attribute_of(policy, word.as_bytes()) {
        return no_attribute(alloc, attribute, word);
    }
    if let Some(context) = context_form(word.as_bytes()) {
        let kind = text_of(context.kind.as_bytes());
        return joined(
            alloc,
            &["'", word, "' is a context: ask of its type, ", kind],
        );
    }
    let mut text = joined(alloc, &["the policy has no type '", word, "'"])?;
    put_nearest_type(&mut text, alloc, policy, word)?;
    Ok(text)
}

fn put_nearest_type(
    out: &mut String,
    alloc: Global,
    policy: &PolicyParts,
    word: &str,
) -> Result<(), Memory> {
    let mut names = Vec::new(alloc);
    'types: for kind in policy.kinds.as_slice() {
        names.push(text_of(kind.name.as_bytes()))?;
    }
    put_nearest(out, alloc, word, names.as_slice())
}

/// Puts the nearest of these names behind a text, where one is near.
fn put_nearest(out: &mut String, alloc: Global, word: &str, names: &[&str]) -> Result<(), Memory> {
    match nearest(alloc, word, names)? {
        None => Ok(()),
        Some(name) => put_all(out, &["; did you mean ", name, "?"]),
    }
}

/// The attribute of a name.
fn attribute_of<'p>(policy: &'p PolicyParts, name: &[u8]) -> Option<&'p AttributeLine> {
    'attributes: for attribute in policy.attributes.as_slice() {
        if attribute.name.as_bytes() == name {
            return Some(attribute);
        }
    }
    None
}

/// What is said of an attribute where a type is wanted.
fn no_attribute(alloc: Global, attribute: &AttributeLine, word: &str) -> Result<String, Memory> {
    let mut text = joined(
        alloc,
        &["'", word, "' is an attribute: ask of one of its types, "],
    )?;
    put_members(&mut text, alloc, attribute)?;
    Ok(text)
}

fn put_members(out: &mut String, alloc: Global, attribute: &AttributeLine) -> Result<(), Memory> {
    let mut names = Vec::new(alloc);
    'members: for member in attribute.members.as_slice() {
        names.push(text_of(member.as_bytes()))?;
    }
    put_listed(out, names.as_slice())
}

/// The class of a name.
pub(crate) fn class_named(alloc: Global, word: &str) -> Result<Class, Stop> {
    if let Some(class) = class_of(word.as_bytes()) {
        return Ok(class);
    }
    let mut text = String::new(alloc);
    put_no_class(&mut text, word)?;
    put_nearest(&mut text, alloc, word, CLASSES.as_slice())?;
    Err(Stop::Usage(text))
}

/// The permission of a class with a name.
pub(crate) fn permission_named(alloc: Global, class: Class, word: &str) -> Result<Perm, Stop> {
    if let Some(perm) = perm_of(class, word.as_bytes()) {
        return Ok(perm);
    }
    let mut text = String::new(alloc);
    put_not_of(&mut text, alloc, class, word)?;
    Err(Stop::Usage(text))
}

/// Puts what is said of a word that is no permission of a class, and the nearest that is.
fn put_not_of(out: &mut String, alloc: Global, class: Class, word: &str) -> Result<(), Memory> {
    put_no_permission(out, alloc, class, word)?;
    let names = permission_names(alloc, class)?;
    put_nearest(out, alloc, word, names.as_slice())
}
