//! Paths and names as texts.

ghost use Rattle.std.specs.Prelude.{◌≡◌, IfOk, map, string_bytes};
ghost use Rattle.wax_directory.specs.Names.{names_in_path, is_plain as is_plain_name};
ghost use Rattle.wax_directory.specs.{Names.is_rooted as is_rooted_path, Shown.join as join_path};
ghost use Rattle.wax_query.specs.Below.{ends_open};

use std::alloc::{AllocError, Global};

/// Returns whether a path can hold the name: it isn't empty, `.` or `..`, and contains no `/`.
pub fn is_plain(name: &str) -> bool
    ensures { result ≡ is_plain_name name.now }
{
    match name.as_bytes() {
        [] | [b'.'] | [b'.', b'.'] => false,
        bytes => !bytes.contains(&b'/'),
    }
}

/// Returns whether the path starts at the root: it begins with `/`.
pub(crate) fn is_rooted(path: &str) -> bool
    ensures { result ≡ is_rooted_path path.now }
{
    path.starts_with('/')
}

/// Returns whether a name can follow the path without a `/`: the path is empty or ends with one.
pub fn is_open(path: &str) -> bool
    ensures { result ≡ ends_open path.now }
{
    match path.as_bytes().last() {
        None => true,
        Some(last) => *last == b'/',
    }
}

/// Splits a path into its names, without empty parts.
pub(crate) fn names_in(alloc: Global, path: &str) -> Result<Vec<&str>, AllocError>
    ensures { IfOk result (λ v. map (λ x. x.now) v.items ≡ names_in_path path.now) }
{
    path.split('/')
        .filter(|name| !name.is_empty())
        .collect(alloc)
}

/// Joins a folder's path and a name, with a `/` if one is needed. It allocates once.
pub fn join(alloc: Global, folder: &str, name: &str) -> Result<String, AllocError>
    ensures { IfOk result (λ path. string_bytes path ≡ join_path folder.now name.now) }
{
    let mut path = String::with_capacity(alloc, folder.len() + name.len() + 1)?;
    path.push_str(folder)?;
    if !is_open(folder) {
        path.push('/')?;
    }
    path.push_str(name)?;
    Ok(path)
}

/// Converts the name of an item into its path in a folder, as `join` does. It allocates only if the
/// text has no room for it.
pub fn into_path(name: String, folder: &str) -> Result<String, AllocError>
    ensures { IfOk result (λ path. string_bytes path ≡ join_path folder.now (string_bytes name)) }
{
    let mut path = name;
    if !is_open(folder) {
        path.insert(0, '/')?;
    }
    path.insert_str(0, folder)?;
    Ok(path)
}
