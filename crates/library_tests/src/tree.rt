//! Tests of the tree of files.

ghost use Rattle.std.specs.Prelude.{◌≡◌, true, OnOk};
ghost use Rattle.std.specs.FinMap as maps;
ghost use Rattle.file_tree.specs.Nodes.{is_directory};

use file_tree::Tree;
use flask_sid::{Memory, Piece, Rows, Sid};
use std::alloc::Global;
use std::test::Fail;

// Makes a file, or nothing where there is an entry or no directory: then the number is the directory's.
fn make(
    tree: &mut Tree,
    alloc: Global,
    directory: u32,
    key: u16,
    name: &[u8],
    label: Sid,
    bytes: Option<Piece>,
) -> Result<u32, Memory> {
    let _root = tree.root();
    let kind = match tree.node(directory) {
        Some(node) => node.bytes.is_none(),
        None => false,
    };
    if !kind {
        return Ok(directory);
    }
    if let Some(number) = tree.entry(directory, key, name) {
        return Ok(number);
    }
    tree.add(alloc, directory, key, name, label, bytes)
}

#[test]
fn entries_stand_under_their_keys(rt: HostRuntime) -> Result<(), Fail> {
    let alloc = rt.alloc();
    let label = Sid::of(1).ok_or("a number in range")?;
    let mut tree = Tree::new(alloc, label)?;
    let home = make(&mut tree, alloc, 0, 0, b"home", label, None)?;
    let other = make(&mut tree, alloc, 0, 7, b"home", label, None)?;
    let again = make(&mut tree, alloc, 0, 0, b"home", label, None)?;
    assert_eq!(rt; [home, other, again], [1, 2, 1]);
    Ok(())
}

// The bytes of a name, joined to those before.
fn joined(alloc: Global, names: &Rows<Piece>) -> Result<Piece, Memory> {
    let mut all = Piece::new(alloc);
    for name in names.as_slice() {
        all.extend(name.as_bytes())?;
        all.push(b' ')?;
    }
    Ok(all)
}

// Writes into a file; nothing else is written to.
fn put(
    tree: &mut Tree,
    alloc: Global,
    number: u32,
    offset: u32,
    piece: &[u8],
) -> Result<(), Memory> {
    let kind = match tree.node(number) {
        Some(node) => node.bytes.is_some(),
        None => false,
    };
    if kind {
        tree.write(alloc, number, offset, piece)?;
        if let Some(node) = tree.node(number) {
            if node.bytes.is_some() {
                tree.append(alloc, number, b"!")?;
            }
        }
    }
    Ok(())
}

#[test]
fn a_gap_is_filled(rt: HostRuntime) -> Result<(), Fail> {
    let alloc = rt.alloc();
    let label = Sid::of(1).ok_or("a number in range")?;
    let mut tree = Tree::new(alloc, label)?;
    let bytes = Piece::of(alloc, b"ab")?;
    let file = make(&mut tree, alloc, 0, 0, b"file", label, Some(bytes))?;
    put(&mut tree, alloc, file, 4, b"cd")?;
    put(&mut tree, alloc, file, 1, b"x")?;
    assert_eq!(rt; tree.bytes(file), b"ax..cd!!".as_slice());
    Ok(())
}

#[test]
fn names_come_in_byte_order(rt: HostRuntime) -> Result<(), Fail> {
    let alloc = rt.alloc();
    let label = Sid::of(1).ok_or("a number in range")?;
    let mut tree = Tree::new(alloc, label)?;
    let _b = make(&mut tree, alloc, 0, 0, b"b", label, None)?;
    let _a = make(&mut tree, alloc, 0, 0, b"a", label, None)?;
    let _ab = make(&mut tree, alloc, 0, 0, b"ab", label, None)?;
    let _other = make(&mut tree, alloc, 0, 3, b"aa", label, None)?;
    let _root = tree.root();
    let names = tree.names(alloc, 0, 0, 1, 16)?;
    let all = joined(alloc, &names)?;
    assert_eq!(rt; all.as_bytes(), b"ab b ".as_slice());
    assert_eq!(rt; [tree.count(0, 0), tree.count(0, 3), tree.len()], [3, 1, 5]);
    Ok(())
}

#[test]
fn a_number_is_used_again(rt: HostRuntime) -> Result<(), Fail> {
    let alloc = rt.alloc();
    let label = Sid::of(1).ok_or("a number in range")?;
    let mut tree = Tree::new(alloc, label)?;
    let one = make(&mut tree, alloc, 0, 0, b"one", label, None)?;
    let filled = drop_empty(&mut tree, 0);
    let gone = drop_empty(&mut tree, one);
    let two = make(&mut tree, alloc, 0, 0, b"two", label, None)?;
    let lost = tree.node(one).is_some();
    assert_eq!(rt; [one, two], [1, 1]);
    assert_eq!(rt; [filled, gone, lost], [false, true, true]);
    Ok(())
}

// Takes a directory out, if it is one that is empty and not the root.
fn drop_empty(tree: &mut Tree, number: u32) -> bool {
    let kind = match tree.node(number) {
        Some(node) => node.bytes.is_none(),
        None => false,
    };
    if number == 0 || !kind || tree.has_entries(number) {
        return false;
    }
    tree.remove(number);
    true
}
