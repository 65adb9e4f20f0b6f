//! A queue of jobs, each of which waits once.
ghost use Rattle.std.specs.Prelude.{◌≡◌, ◌<◌, ◌≤◌, [], ◌∷◌, ◌++◌, not, is_some, IsSome, IsNone, IsTrue, Some, None, option_map, IfOk, IfErr, IfSome, OnOk, OnErr, length, take};
ghost use Rattle.std.specs.Map.{keys_of};
ghost use Rattle.std.specs.Map.Iter.{deref};
ghost use Rattle.linked_hash_map.specs.Pairs.{find, first, key_or, last, set_or_push, set_value, value_at, without, without_first, without_last};

use linked_hash_map::{Entry, LinkedHashMap, Mode, Refused};
use std::alloc::Global;
use std::hash::Hash;

/// Jobs that wait, the oldest first.
#[derive(Drop)]
pub struct Queue<J: Eq + Hash> {
    jobs: LinkedHashMap<J, u64>,
}

impl<J: Eq + Hash> Queue<J> {
    /// Makes a queue in which no job waits.
    pub fn new(alloc: Global) -> Self
        ensures { result.jobs.pairs ≡ [] }
    {
        Queue {
            jobs: LinkedHashMap::new(alloc),
        }
    }

    /// Lets a job wait, with its weight, and tells whether it is new. One that waits already keeps
    /// its place and its weight. If there is no memory for a new one, it is handed back and
    /// nothing changes.
    pub fn add(&mut self, job: J, weight: u64) -> Result<bool, Refused<J, u64>>
    where
        J: Drop,
        ensures new { IfOk result (λ new. new ≡ not (is_some (find J.eq self.old.jobs.pairs job))) }
        ensures waits { OnOk result
            (find J.eq self.old.jobs.pairs job ≡ None
            → self.new.jobs.pairs ≡ self.old.jobs.pairs ++ (job, weight) ∷ []) }
        ensures waited { OnOk result
            (IsSome (find J.eq self.old.jobs.pairs job)
            → self.new.jobs.pairs ≡ self.old.jobs.pairs) }

        ensures handed_back { IfErr result (λ refused.
            (refused.key ≡ job) × (refused.value ≡ weight)) }
        ensures unchanged { OnErr result (self.new.jobs ≡ self.old.jobs) }
    {
        match self.jobs.entry(job) {
            Entry::Occupied(_entry) => Ok(false),
            Entry::Vacant(entry) => {
                entry.insert(weight)?;
                Ok(true)
            }
        }
    }

    /// Takes out the job that has waited longest.
    pub fn next(&mut self) -> Option<(J, u64)>
        ensures job { result ≡ first self.old.jobs.pairs }
        ensures others { self.new.jobs.pairs ≡ without_first self.old.jobs.pairs }
    {
        self.jobs.pop_front()
    }

    /// Takes back the job that was added last.
    pub fn undo(&mut self) -> Option<(J, u64)>
        ensures job { result ≡ last self.old.jobs.pairs }
        ensures others { self.new.jobs.pairs ≡ without_last self.old.jobs.pairs }
    {
        self.jobs.pop_back()
    }

    /// Takes back all jobs but the first ones, at most so many.
    pub fn keep_first(&mut self, most: usize)
    where
        J: Drop,
        ensures first { self.new.jobs.pairs ≡ take most self.old.jobs.pairs }
        ensures len { length self.new.jobs.pairs ≤ most }
        ensures room { self.new.jobs.capacity ≡ self.old.jobs.capacity }
    {
        self.jobs.truncate(most);
    }

    /// Gives a job this weight, in its place or as the last, and returns the one that it had. If
    /// there is no memory for a new one, it is handed back and nothing changes.
    pub fn weigh(&mut self, job: J, weight: u64) -> Result<Option<u64>, Refused<J, u64>>
    where
        J: Drop,
        ensures old { IfOk result (λ old. old ≡ value_at J.eq self.old.jobs.pairs job) }
        ensures jobs { OnOk result
            (self.new.jobs.pairs ≡ set_or_push J.eq self.old.jobs.pairs job weight) }
        ensures mode { self.new.jobs.mode ≡ self.old.jobs.mode }

        ensures handed_back { IfErr result (λ refused.
            (refused.key ≡ job) × (refused.value ≡ weight)) }
        ensures unchanged { OnErr result (self.new.jobs ≡ self.old.jobs) }
    {
        self.jobs.replace(job, weight)
    }

    /// Lets a new job wait before all others, with its weight, and tells whether it is new. In
    /// `Touch` one that waits already is the next, too. If there is no memory for a new one, it is
    /// handed back and nothing changes.
    pub fn add_first(&mut self, job: J, weight: u64) -> Result<bool, Refused<J, u64>>
    where
        J: Drop,
        ensures new { IfOk result (λ new. new ≡ not (is_some (find J.eq self.old.jobs.pairs job))) }
        ensures pushed { IfOk result (λ new. IsTrue new
            → self.new.jobs.pairs ≡ (job, weight) ∷ self.old.jobs.pairs) }
        ensures next { OnOk result (self.old.jobs.mode ≡ Mode.Touch → first self.new.jobs.pairs
            ≡ Some (key_or job (find J.eq self.old.jobs.pairs job), weight)) }

        ensures handed_back { IfErr result (λ refused.
            (refused.key ≡ job) × (refused.value ≡ weight)) }
        ensures unchanged { OnErr result (self.new.jobs ≡ self.old.jobs) }
    {
        let old = self.jobs.insert_front(job, weight)?;
        Ok(old.is_none())
    }

    /// Takes out the job that has waited longest, if its weight is at most `most`.
    pub fn next_within(&mut self, most: u64) -> Option<(J, u64)>
    where
        J: Drop,
        ensures job { IfSome result (λ job. first self.old.jobs.pairs ≡ Some job) }
        ensures within { IfSome result (λ job. job.1 ≤ most) }
        ensures others { IfSome result (λ job.
            self.new.jobs.pairs ≡ without J.eq self.old.jobs.pairs job.0) }
        ensures heavy { IsNone result
            → IfSome (first self.old.jobs.pairs) (λ job. most < job.1) }
        ensures stays { IsNone result → self.new.jobs.pairs ≡ self.old.jobs.pairs }
    {
        let entry = self.jobs.front_entry()?;
        if *entry.get() > most {
            return None;
        }
        Some(entry.remove_entry())
    }

    /// Gives the job that was added last another weight, and returns the one that it had.
    pub fn weigh_last(&mut self, weight: u64) -> Option<u64>
        ensures old { result ≡ option_map (λ job. job.1) (last self.old.jobs.pairs) }
        ensures weight { IfSome (last self.old.jobs.pairs) (λ job.
            self.new.jobs.pairs ≡ set_value J.eq self.old.jobs.pairs job.0 weight) }
        ensures none { IsNone result → self.new.jobs.pairs ≡ self.old.jobs.pairs }
    {
        let entry = self.jobs.back_entry()?;
        let old = *entry.get();
        *entry.into_mut() = weight;
        Some(old)
    }

    /// Shows the job that comes next.
    pub fn peek(&self) -> Option<&J>
        ensures { option_map deref result ≡ first (keys_of self.now.jobs.pairs) }
    {
        match self.jobs.front() {
            Some((job, _weight)) => Some(job),
            None => None,
        }
    }
}
