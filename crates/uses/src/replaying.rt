//! What a map holds after commands that were replayed.
ghost use Rattle.std.specs.Prelude.{◌≡◌, ◌+◌, ◌∷◌, [], length, map, IsFalse, IfOk, OnOk, OnErr};
ghost use Rattle.std.specs.List.{list_any};
ghost use Rattle.linked_hash_map.specs.Commands.{pairs_after_all, replies_to};
ghost use Rattle.linked_hash_map.specs.LastUses.{sets_keep, pairs_by_use};
ghost use Rattle.uses.specs.Replaying.{NoneIsRefusal, RefusesNothing, RefuseAlike, log_of};

use linked_hash_map::LinkedHashMap;
use linked_hash_map::replay::{Command, Reply, replay};
use std::alloc::{AllocError, Global};
use std::hash::{BuildHasher, Hash};

/// Runs three commands by `replay` and returns the replies: the value of a key is written, another
/// key is moved to the back and a third is removed, each if it is there. No command is refused; the
/// run is, if the commands or the replies cannot be allocated.
pub fn write_refresh_remove<K: Eq + Hash + Drop, V: Drop, S: BuildHasher>(
    alloc: Global,
    map: &mut LinkedHashMap<K, V, S>,
    pair: (K, V),
    used: K,
    gone: K,
) -> Result<Vec<Reply<K, V>>, AllocError>
    ensures pairs { OnOk result (map.new.pairs ≡ pairs_after_all K.eq map.old.mode map.old.pairs
        (Command.Write pair.0 pair.1 ∷ Command.Refresh used ∷ Command.Remove gone ∷ [])) }
    ensures replies { IfOk result (λ replies.
        replies.items ≡ replies_to K.eq map.old.mode map.old.capacity map.old.pairs
        (Command.Write pair.0 pair.1 ∷ Command.Refresh used ∷ Command.Remove gone ∷ [])) }
    ensures unchanged { OnErr result (map.new ≡ map.old) }
{
    let mut commands = Vec::with_capacity(alloc, 3)?;
    commands.push_reserved(Command::Write(pair.0, pair.1));
    commands.push_reserved(Command::Refresh(used));
    commands.push_reserved(Command::Remove(gone));
    match replay(map, commands) {
        Ok(replies) => Ok(replies),
        Err(_commands) => Err(AllocError),
    }
}

/// Inserts two pairs by `replay` and returns the replies. If the map has two pairs more then, none
/// is a refusal.
pub fn insert_two<K: Eq + Hash + Drop, V: Drop, S: BuildHasher>(
    alloc: Global,
    map: &mut LinkedHashMap<K, V, S>,
    one: (K, V),
    other: (K, V),
) -> Result<Vec<Reply<K, V>>, AllocError>
    ensures { IfOk result (λ replies. length map.new.pairs ≡ length map.old.pairs + 2
        → NoneIsRefusal replies.items) }
{
    let mut commands = Vec::with_capacity(alloc, 2)?;
    commands.push_reserved(Command::Insert(one.0, one.1));
    commands.push_reserved(Command::Insert(other.0, other.1));
    match replay(map, commands) {
        Ok(given) => Ok(given),
        Err(_commands) => Err(AllocError),
    }
}

/// What comes of a run: a reply to each command, or the commands if room for the replies was
/// refused.
pub type Outcome<K, V> = Result<Vec<Reply<K, V>>, Vec<Command<K, V>>>;

/// Runs commands by `replay` and returns what comes of it.
///
/// If the mode is `Keep` neither at first nor by a command, the pairs stand in the order in which
/// their keys were last inserted or refreshed. If room for the replies was refused, the map is as
/// it was.
#[tactic(auto, using(linked_hash_map::proofs::Callers::WholeRuns::in_touch))]
pub fn replay_in_touch<K: Eq + Hash + Drop, V: Drop, S: BuildHasher>(
    map: &mut LinkedHashMap<K, V, S>,
    commands: Vec<Command<K, V>>,
) -> Outcome<K, V>
    ensures order { IfOk result (λ replies.
        IsFalse (list_any sets_keep (log_of K.eq map.old commands.items replies.items))
        → map.new.pairs ≡ pairs_by_use K.eq (log_of K.eq map.old commands.items replies.items)) }
    ensures unchanged { OnErr result (map.new ≡ map.old) }
{
    replay(map, commands)
}

/// Runs the same commands on two maps that have the same pairs and the same mode, each with a build
/// hasher of its own, and returns what comes of each run.
///
/// If the same commands are refused in both runs, as if none is, their answers are the same, and
/// the two maps have the same pairs in the same order, and the same capacity if they had: nothing
/// but a refusal of memory rests on the hasher. A run uses its commands up, so they are given
/// twice. If room for the replies of a run was refused, its map is as it was. It costs what the two
/// runs cost, and takes the memory that they take.
pub fn replay_under_two_hashers<K: Eq + Hash + Drop, V: Drop, S: BuildHasher, T: BuildHasher>(
    first: &mut LinkedHashMap<K, V, S>,
    second: &mut LinkedHashMap<K, V, T>,
    commands: Vec<Command<K, V>>,
    copies: Vec<Command<K, V>>,
) -> (Outcome<K, V>, Outcome<K, V>)
    requires same_pairs { first.old.pairs ≡ second.old.pairs }
    requires same_mode { first.old.mode ≡ second.old.mode }
    requires same_commands { commands.items ≡ copies.items }
    ensures answers { RefuseAlike result.0 result.1
        → IfOk result.0 (λ one.
        IfOk result.1 (λ other.
        map (λ reply. reply.answer) one.items ≡ map (λ reply. reply.answer) other.items)) }
    ensures pairs { RefuseAlike result.0 result.1 → first.new.pairs ≡ second.new.pairs }
    ensures capacity { RefuseAlike result.0 result.1 → first.old.capacity ≡ second.old.capacity
        → first.new.capacity ≡ second.new.capacity }
    ensures given { RefusesNothing result.0 → RefusesNothing result.1
        → RefuseAlike result.0 result.1 }
    ensures first_unchanged { OnErr result.0 (first.new ≡ first.old) }
    ensures second_unchanged { OnErr result.1 (second.new ≡ second.old) }
{
    let one = replay(first, commands);
    let other = replay(second, copies);
    (one, other)
}
