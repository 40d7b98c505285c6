//! The names of classes and permissions, and what is said of words that are none.

use crate::sentences::{put_all, put_listed};
use access_vectors::{Class, Perm, class_name, perm_name, perm_of};
use flask_sid::Memory;
use std::alloc::Global;

/// The names of the classes.
pub static CLASSES: [&str; 5] = ["file", "dir", "process", "port", "security"];

/// The names of the permissions of a class, in their order.
pub fn permission_names(alloc: Global, class: Class) -> Result<Vec<&'static str>, Memory> {
    let mut names = Vec::new(alloc);
    put_permission_names(class, &mut names)?;
    Ok(names)
}

/// Puts the names of the permissions of a class behind others.
pub(crate) fn put_permission_names<'a>(
    class: Class,
    names: &mut Vec<&'a str>,
) -> Result<(), Memory> {
    'indexes: for index in 0..class.perm_count() {
        if let Some(perm) = Perm::of(class, index) {
            names.push(perm_name(perm))?;
        }
    }
    Ok(())
}

/// Puts what is said of a word that is no class.
pub fn put_no_class(out: &mut String, word: &str) -> Result<(), Memory> {
    put_all(
        out,
        &[
            "there is no class '",
            word,
            "': file, dir, process, port and security are classes",
        ],
    )
}

/// Puts what is said of a word that is no permission of a class: which ones it has, and another class that has this one.
pub fn put_no_permission(
    out: &mut String,
    alloc: Global,
    class: Class,
    word: &str,
) -> Result<(), Memory> {
    put_all(
        out,
        &["the class ", class_name(class), " has no permission '"],
    )?;
    put_all(out, &[word, "'"])?;
    if let Some(other) = class_with(word) {
        put_all(out, &[", but ", class_name(other), " has"])?;
    }
    put_all(out, &["; ", class_name(class), " has "])?;
    put_listed(out, permission_names(alloc, class)?.as_slice())
}

/// The first class that has a permission of this name.
pub(crate) fn class_with(name: &str) -> Option<Class> {
    'classes: for class in Class::ALL.iter() {
        if perm_of(*class, name.as_bytes()).is_some() {
            return Some(*class);
        }
    }
    None
}
