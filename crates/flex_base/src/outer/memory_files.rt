// Files in memory, which the outer objects over memory share.
ghost use Rattle.std.specs.Prelude.{◌≡◌, ◌≢◌, ℕ, ◌≤◌, ◌<◌, ◌++◌, List, [], length, Option, Some, IfOk, OnOk, OnErr, option_map, unwrap_or};
ghost use Rattle.std.specs.Result.{result_map_both};
ghost use Rattle.flex_base.specs.Files.{Files, Taken};
ghost use Rattle.flex_base.specs.FilesInMemory.{files_of, entries_of, files_of_map};

use crate::outer::{Failed, TakeFault};
use crate::text::Text;
use std::alloc::Global;
use std::collections::BTreeMap;

// The contents of the first file of this name.
pub(crate) fn find<'a>(files: &'a [(Text, Vec<u8>)], name: &str) -> Option<&'a [u8]>
    ensures { option_map (λ r. r.now) result ≡ files_of (entries_of files.now) name.now }
{
    for file in files {
        if name.as_bytes() == file.0.bytes() {
            return Some(&file.1);
        }
    }
    None
}

// A copy of a file's bytes, if they are no more than the limit.
pub(crate) fn copy(alloc: Global, bytes: &[u8], limit: u64) -> Result<Vec<u8>, TakeFault>
    ensures taken { (files : Files) (name : List ℕ) → files name ≡ Some bytes.now
        → Taken (Some files) name limit (result_map_both (λ v. v.items) (λ e. e) result) }
    ensures within { IfOk result (λ v. length v.items ≤ limit) }
    ensures calm { result ≢ Err TakeFault.Failed }
    ensures over { (n : ℕ) → result ≡ Err (TakeFault.TooLong n) → limit < n }
{
    let length = bytes.len() as u64;
    if length > limit {
        return Err(TakeFault::TooLong(length));
    }
    match Vec::from_slice(alloc, bytes) {
        Ok(copied) => Ok(copied),
        Err(_) => Err(TakeFault::OutOfMemory),
    }
}

// The contents of the file of this name.
pub(crate) fn look<'a>(files: &'a BTreeMap<String, Vec<u8>>, name: &str) -> Option<&'a [u8]>
    ensures { option_map (λ r. r.now) result ≡ files_of_map files.now name.now }
{
    match files.get(name) {
        Some(file) => Some(file),
        None => None,
    }
}

// Makes the file of this name empty.
pub(crate) fn make_empty(
    alloc: Global,
    files: &mut BTreeMap<String, Vec<u8>>,
    name: &str,
) -> Result<(), Failed>
    ensures ok { OnOk result (files_of_map files.new name.now ≡ Some []) }
    ensures others { OnOk result
        ((other : List ℕ) → other ≢ name.now → files_of_map files.new other ≡ files_of_map files.old other) }
    ensures err { OnErr result ((any : List ℕ) → files_of_map files.new any ≡ files_of_map files.old any) }
{
    let key = match String::from_str(alloc, name) {
        Ok(key) => key,
        Err(_) => return Err(Failed),
    };
    match files.insert(key, Vec::new(alloc)) {
        Ok(_) => Ok(()),
        Err(_) => Err(Failed),
    }
}

// Adds bytes at the end of the file of this name.
pub(crate) fn append(
    alloc: Global,
    files: &mut BTreeMap<String, Vec<u8>>,
    name: &str,
    bytes: &[u8],
) -> Result<(), Failed>
    ensures ok { OnOk result
        (files_of_map files.new name.now ≡ Some (unwrap_or (files_of_map files.old name.now) [] ++ bytes.now)) }
    ensures others { OnOk result
        ((other : List ℕ) → other ≢ name.now → files_of_map files.new other ≡ files_of_map files.old other) }
    ensures err { OnErr result ((any : List ℕ) → files_of_map files.new any ≡ files_of_map files.old any) }
{
    match files.get_mut(name) {
        Some(file) => match file.extend_from_slice(bytes) {
            Ok(()) => Ok(()),
            Err(_) => Err(Failed),
        },
        None => {
            append_new(alloc, files, name, bytes)?;
            Ok(())
        }
    }
}

// Makes a file of these bytes.
fn append_new(
    alloc: Global,
    files: &mut BTreeMap<String, Vec<u8>>,
    name: &str,
    bytes: &[u8],
) -> Result<(), Failed>
    ensures ok { OnOk result (files_of_map files.new name.now ≡ Some bytes.now) }
    ensures others { OnOk result
        ((other : List ℕ) → other ≢ name.now → files_of_map files.new other ≡ files_of_map files.old other) }
    ensures err { OnErr result ((any : List ℕ) → files_of_map files.new any ≡ files_of_map files.old any) }
{
    let key = match String::from_str(alloc, name) {
        Ok(key) => key,
        Err(_) => return Err(Failed),
    };
    let file = match Vec::from_slice(alloc, bytes) {
        Ok(file) => file,
        Err(_) => return Err(Failed),
    };
    match files.insert(key, file) {
        Ok(_) => Ok(()),
        Err(_) => Err(Failed),
    }
}
