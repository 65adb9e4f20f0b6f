//! Types that refer to themselves through the values of maps and of a cache, with `Vec`, `Box` and
//! `Option` between.

use linked_hash_map::LinkedHashMap;
use lru_cache::LruCache;
use std::cmp::Ordering;

/// A folder.
#[derive(Debug, Clone, Drop, PartialEq, Eq, PartialOrd, Ord, Hash)]
pub struct Folder {
    /// The sizes of the files by their names.
    pub files: LinkedHashMap<String, u64>,
    /// The folders in it by their names.
    pub folders: LinkedHashMap<String, Folder>,
}

/// A setting.
#[derive(Debug, Clone, Drop, PartialEq, Eq, PartialOrd, Ord, Hash)]
pub enum Setting {
    /// A number.
    Number(u64),
    /// Settings by their numbers, and others by their names.
    Both(LinkedHashMap<u64, Setting>, LinkedHashMap<String, Setting>),
    /// Groups of settings.
    Groups(Vec<LinkedHashMap<String, Setting>>),
    /// Settings that may be absent.
    Optional(LinkedHashMap<String, Option<Box<Setting>>>),
}

/// A site whose pages are loaded when they are asked for, and dropped if they are not.
#[derive(Debug, Drop)]
pub enum Site {
    /// A page.
    Page(String),
    /// The sites that were asked for last.
    Sites(LruCache<String, Site>),
}

/// Returns the folder in another one that has a name.
pub fn subfolder<'a>(parent: &'a Folder, name: &str) -> Option<&'a Folder> {
    parent.folders.get(name)
}

/// Returns the order of two settings.
pub fn order(left: &Setting, right: &Setting) -> Ordering {
    left.cmp(right)
}

/// Returns the site with a name among those that were asked for last, and counts as asking for it.
pub fn ask<'a>(site: &'a mut Site, name: &str) -> Option<&'a mut Site> {
    match site {
        Site::Sites(sites) => sites.get_mut(name),
        Site::Page(_) => None,
    }
}
