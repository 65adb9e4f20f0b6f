//! Tasks that take turns.
ghost use Rattle.std.specs.Prelude.{◌≡◌, [], ◌∷◌, ◌++◌, ℕ, Some, map};
ghost use Rattle.std.specs.Map.{keys_of};
ghost use Rattle.linked_hash_map.specs.Pairs.{first, without_first};
ghost use Rattle.uses.specs.Counting.{ran};

use linked_hash_map::LinkedHashMap;

/// Runs the first task, counts that run, puts the task behind the others and returns it, or returns
/// `None` if there is no task. The tasks have numbers, each with how often it ran.
#[tactic(auto, using(linked_hash_map::proofs::Callers::Rules::turns))]
pub fn turn(tasks: &mut LinkedHashMap<u64, u64>) -> Option<u64>
    ensures task { result ≡ first (keys_of tasks.old.pairs) }
    ensures turned { (task : ℕ × ℕ) → first tasks.old.pairs ≡ Some task
        → tasks.new.pairs ≡ without_first tasks.old.pairs ++ ran task ∷ [] }
{
    let (task, runs) = tasks.pop_front()?;
    match tasks.insert(task, runs.saturating_add(1)) {
        Ok(_none) => Some(task),
        Err(_refused) => unreachable!(),
    }
}

/// Runs each task once. The order is as before.
#[tactic(auto, using(linked_hash_map::proofs::Callers::Rules::rounds))]
pub fn round(tasks: &mut LinkedHashMap<u64, u64>)
    ensures { tasks.new.pairs ≡ map ran tasks.old.pairs }
{
    for _turn in 0..tasks.len() {
        turn(tasks);
    }
}
