//! Tasks in the order in which they came, from which those that are done leave.
ghost use Rattle.std.specs.Prelude.{◌≡◌, ◌/◌, ◌%◌, [], false, filter, nat_eq, nat_lt, not, true, IfOk, IfErr, IfSome, OnOk, OnErr};
ghost use Rattle.std.specs.List.{IsDistinct};
ghost use Rattle.std.specs.List.Sorted.{IsNonDecreasingBy, IsPermutation, IsSorted};
ghost use Rattle.linked_hash_map.specs.Pairs.{first, without_first};
ghost use Rattle.linked_hash_set.specs.Items.{contains, push_if_absent, without};

use linked_hash_set::{LinkedHashSet, NoRoom, Refused};
use std::alloc::Global;
use std::hash::Hash;

/// Tasks that are still to be done, each once, the oldest first.
#[derive(Drop)]
pub struct Tasks<T: Eq + Hash> {
    open: LinkedHashSet<T>,
}

impl<T: Eq + Hash> Tasks<T> {
    /// Makes a list without tasks.
    pub fn new(alloc: Global) -> Self
        ensures { result.open.items ≡ [] }
    {
        Tasks {
            open: LinkedHashSet::new(alloc),
        }
    }

    /// Adds a task behind the others, and returns whether it is new. One that is still to be done
    /// keeps its place. If there is no memory for a new one, it is handed back and nothing changes.
    pub fn add(&mut self, task: T) -> Result<bool, Refused<T>>
    where
        T: Drop,
        ensures new { IfOk result (λ new. new ≡ not (contains T.eq self.old.open.items task)) }
        ensures tasks { OnOk result
            (self.new.open.items ≡ push_if_absent T.eq self.old.open.items task) }
        ensures is_there { OnOk result (contains T.eq self.new.open.items task ≡ true) }
        ensures others { (other : T) → OnOk result (T.eq task other ≡ false
            → contains T.eq self.new.open.items other
            ≡ contains T.eq self.old.open.items other) }
        ensures distinct { IsDistinct T.eq self.new.open.items }

        ensures handed_back { IfErr result (λ refused. refused.item ≡ task) }
        ensures unchanged { OnErr result (self.new.open ≡ self.old.open) }
    {
        self.open.insert_if_absent(task)
    }

    /// Removes a task that is done, and returns whether it was still to be done. The others keep
    /// their order.
    pub fn done(&mut self, task: &T) -> bool
    where
        T: Drop,
        ensures was_there { result ≡ contains T.eq self.old.open.items task.now }
        ensures order { self.new.open.items ≡ without T.eq self.old.open.items task.now }
        ensures gone { contains T.eq self.new.open.items task.now ≡ false }
        ensures others { (other : T) → T.eq task.now other ≡ false
            → contains T.eq self.new.open.items other
            ≡ contains T.eq self.old.open.items other }
        ensures distinct { IsDistinct T.eq self.new.open.items }
    {
        self.open.remove(task)
    }

    /// Removes the oldest task and returns it.
    pub fn next(&mut self) -> Option<T>
        ensures oldest { result ≡ first self.old.open.items }
        ensures order { self.new.open.items ≡ without_first self.old.open.items }
        ensures gone { IfSome result (λ task. contains T.eq self.new.open.items task ≡ false) }
        ensures others { (other : T) → IfSome result (λ task. T.eq task other ≡ false
            → contains T.eq self.new.open.items other
            ≡ contains T.eq self.old.open.items other) }
        ensures distinct { IsDistinct T.eq self.new.open.items }
    {
        self.open.pop_front()
    }

    /// Returns whether a task is still to be done.
    pub fn has(&self, task: &T) -> bool
        ensures { result ≡ contains T.eq self.now.open.items task.now }
    {
        self.open.contains(task)
    }

    /// Sorts the tasks.
    pub fn sort(&mut self)
    where
        T: Ord,
        ensures sorted { IsSorted T.cmp self.new.open.items }
        ensures same { IsPermutation self.old.open.items self.new.open.items }
        ensures distinct { IsDistinct T.eq self.new.open.items }
    {
        self.open.sort();
    }

    /// Sorts the tasks, the greatest first.
    pub fn sort_latest_first(&mut self)
    where
        T: Ord,
        ensures sorted { IsSorted (λ task other. T.cmp other task) self.new.open.items }
        ensures same { IsPermutation self.old.open.items self.new.open.items }
        ensures distinct { IsDistinct T.eq self.new.open.items }
    {
        self.open.sort_by(|task, other| other.cmp(task));
    }
}

/// Removes the tasks whose number is `first` or above. The others keep their order.
pub fn cancel_from(tasks: &mut Tasks<u64>, first: u64)
    ensures order { tasks.new.open.items
        ≡ filter (λ task. nat_lt task first) tasks.old.open.items }
    ensures distinct { IsDistinct nat_eq tasks.new.open.items }
{
    tasks.open.retain(|task| *task < first);
}

/// Sorts the tasks by their groups: a task's group is its number without the last two digits. Tasks
/// of one group keep their order.
pub fn sort_by_group(tasks: &mut Tasks<u64>)
    ensures sorted { IsNonDecreasingBy (λ task. task / 100) tasks.new.open.items }
    ensures same { IsPermutation tasks.old.open.items tasks.new.open.items }
    ensures distinct { IsDistinct nat_eq tasks.new.open.items }
{
    tasks
        .open
        .sort_by(|task, other| (*task / 100).cmp(&(*other / 100)));
}

/// Sorts the tasks by their last two digits, which it computes once for each. Tasks with the same
/// ones keep their order. If there is no memory for them, nothing changes.
pub fn sort_by_digits(tasks: &mut Tasks<u64>) -> Result<(), NoRoom>
    ensures sorted { OnOk result (IsNonDecreasingBy (λ task. task % 100) tasks.new.open.items) }
    ensures same { IsPermutation tasks.old.open.items tasks.new.open.items }
    ensures unchanged { OnErr result (tasks.new ≡ tasks.old) }
{
    tasks.open.sort_by_cached_key(|task| *task % 100)?;
    Ok(())
}
