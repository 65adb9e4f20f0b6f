//! The lines that came last.
#![tactic(auto, using(crate::proofs::Remembered::remembered))]

ghost use Rattle.std.specs.Prelude.{◌≡◌, ◌≤◌, ◌+◌, [], length, not, IfOk, IfErr, OnOk};
ghost use Rattle.std.specs.Option.{ForSome};
ghost use Rattle.dedup_lines.specs.Kept.{has_line};
ghost use Rattle.dedup_lines.specs.Push.{bytes_of, to_back, trimmed};

use super::stop::Stop;
use linked_hash_set::{Iter, LinkedHashSet};
use std::alloc::Global;
use std::hash::BuildHasher;

/// The distinct lines, in the order of their last appearances: all of them, or the last `size`.
#[derive(Drop)]
pub struct Recent<S: BuildHasher> {
    lines: LinkedHashSet<Vec<u8>, S>,
    size: Option<usize>,
    alloc: Global,
    ghost within: { ForSome size (λ n. length lines.items ≤ n) },
}

/// Removes the front line if there are more than `size`.
fn trim<S: BuildHasher>(lines: &mut LinkedHashSet<Vec<u8>, S>, size: Option<usize>)
    requires one_more { ForSome size (λ n. length lines.old.items ≤ n + 1) }
    ensures within { ForSome size (λ n. length lines.new.items ≤ n) }
    ensures lines { bytes_of lines.new.items ≡ trimmed size (bytes_of lines.old.items) }
{
    let Some(size) = size else {
        return;
    };
    if lines.len() > size {
        let _front = lines.pop_front();
    }
}

impl<S: BuildHasher> Recent<S> {
    ghost use Rattle.dedup_lines.specs.Recent.{recent_lines, recent_size};

    /// Creates one without lines, which keeps `size` lines at most and hashes them by `hasher`.
    pub fn new(alloc: Global, size: Option<usize>, hasher: S) -> Recent<S>
        ensures lines { recent_lines result ≡ [] }
        ensures size { recent_size result ≡ size }
    {
        Recent {
            lines: LinkedHashSet::with_hasher(alloc, hasher),
            size,
            alloc,
        }
    }

    /// Makes a line the last one, and returns whether it is new. Only a new line allocates.
    pub fn push(&mut self, line: &[u8]) -> Result<bool, Stop>
        ensures is_new { IfOk result (λ is_new.
            is_new ≡ not (has_line (recent_lines self.old) line.now)) }
        ensures lines { OnOk result (recent_lines self.new
            ≡ trimmed (recent_size self.old) (to_back (recent_lines self.old) line.now)) }
        ensures size { recent_size self.new ≡ recent_size self.old }
        ensures stop { IfErr result (λ stop. stop ≡ Stop.OutOfMemory) }
    {
        if self.lines.refresh(line) {
            return Ok(false);
        }
        let key = line.to_vec(self.alloc)?;
        self.lines.insert(key)?;
        trim(&mut self.lines, self.size);
        Ok(true)
    }

    /// Returns the lines, the one that came last at the end.
    pub fn iter(&self) -> Iter<'_, Vec<u8>>
        ensures { bytes_of result ≡ recent_lines self.now }
    {
        self.lines.iter()
    }
}
