//! The known name that is nearest to an unknown one.

use flask_sid::Memory;
use std::alloc::Global;
use strsim::generic_levenshtein;

/// Words that are used elsewhere for what has another name here.
static ELSEWHERE: [(&str, &str); 32] = [
    ("directory", "dir"),
    ("folder", "dir"),
    ("socket", "port"),
    ("tcp_socket", "port"),
    ("all", "*"),
    ("any", "*"),
    ("deny", "withhold"),
    ("forbid", "withhold"),
    ("revoke", "withhold"),
    ("grant", "allow"),
    ("permit", "allow"),
    ("user", "client"),
    ("subject", "client"),
    ("start", "run"),
    ("delete", "unlink"),
    ("remove", "unlink"),
    ("rm", "unlink"),
    ("ls", "list"),
    ("cat", "read"),
    ("touch", "create"),
    ("chcon", "relabel"),
    ("kill", "signal"),
    ("spawn", "fork"),
    ("execute", "exec"),
    ("listen", "bind"),
    ("receive", "recv"),
    ("execute", "transition"),
    ("complete", "ack"),
    ("commit", "ack"),
    ("switch", "notify"),
    ("load", "notify"),
    ("administrator", "admin"),
];

/// The first of the names that is the word but for capital letters, or has its meaning elsewhere; else the first to which fewest edits
/// lead from the word, or `None` where more than two lead to each, or as many as the word has letters.
pub fn nearest<'a>(
    alloc: Global,
    word: &str,
    names: &[&'a str],
) -> Result<Option<&'a str>, Memory> {
    if let Some(name) = meant(word, names) {
        return Ok(Some(name));
    }
    let mut found = None;
    let mut least = word.len().min(3);
    'names: for name in names {
        let edits = edits(alloc, word, *name)?;
        if edits < least {
            least = edits;
            found = Some(*name);
        }
    }
    Ok(found)
}

/// How many edits lead from one word to another; 3 where the one is longer by 3 or more.
fn edits(alloc: Global, from: &str, to: &str) -> Result<usize, Memory> {
    if from.len().abs_diff(to.len()) > 2 {
        return Ok(3);
    }
    Ok(generic_levenshtein(alloc, from.as_bytes(), to.as_bytes())?)
}

fn meant<'a>(word: &str, names: &[&'a str]) -> Option<&'a str> {
    'names: for name in names {
        let name = *name;
        if name.eq_ignore_ascii_case(word) || is_called(word, name) {
            return Some(name);
        }
    }
    None
}

/// Whether a word is used elsewhere for what has this name here.
fn is_called(word: &str, name: &str) -> bool {
    'pairs: for pair in ELSEWHERE.iter() {
        let (other, here) = *pair;
        if other == word && here == name {
            return true;
        }
    }
    false
}
