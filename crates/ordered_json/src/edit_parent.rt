//! The value that an edit by the last name of a pointer takes place in.
ghost use Rattle.std.specs.Prelude.{◌≡◌, ◌≢◌, ◌∷◌, ◌++◌, [], Err, IfErr, IfOk, List, IfSome, OnErr, Some, map, option_map, string_bytes, ℕ};
ghost use Rattle.json.specs.Json.{Json, null};
ghost use Rattle.ordered_json.specs.Edits.{Edited, by_names, edit_parent};
ghost use Rattle.ordered_json.specs.Pointers.{change_at, get_at, names};
ghost use Rattle.ordered_json.specs.View.{view};
ghost use Rattle.ordered_json.specs.declared.edit.EditError.TheVariants.{NoRoom};

use crate::edit::EditError;
use crate::pointer::{names_of, swap_at};
use crate::value::Value;
use std::alloc::Global;

/// A value that was taken out of a document, and the names that lead to it.
#[derive(Drop)]
pub(crate) struct Taken {
    pub path: Vec<String>,
    pub parent: Value,
}

/// Takes the value out that all names of a pointer but the last lead to, and returns the last name
/// with it.
pub(crate) fn take_parent(
    document: &mut Value,
    pointer: &str,
    alloc: Global,
) -> Result<(String, Taken), EditError>
    ensures names { IfOk result (λ r. names pointer.now
        ≡ Some (map string_bytes r.1.path.items ++ string_bytes r.0 ∷ [])) }
    ensures parent { IfOk result (λ r.
        get_at (map string_bytes r.1.path.items) (view document.old) ≡ Some (view r.1.parent)) }
    ensures rest { IfOk result (λ r. view document.new
        ≡ change_at (λ _. null) (map string_bytes r.1.path.items) (view document.old)) }
    ensures why { IfErr result (λ error. error ≢ NoRoom → (f : List ℕ → Json → Edited)
        → by_names (edit_parent f) (names pointer.now) (view document.old) ≡ Err error) }
    ensures unchanged { OnErr result (view document.new ≡ view document.old) }
{
    let mut path = match names_of(alloc, pointer) {
        Ok(path) => path,
        Err(error) => return Err(error),
    };
    let Some(name) = path.pop() else {
        return Err(EditError::Absent);
    };
    match take_at(document, path) {
        Some(taken) => Ok((name, taken)),
        None => Err(EditError::Absent),
    }
}

/// Takes the value out that names lead to, and leaves `null`.
pub(crate) fn take_at(document: &mut Value, path: Vec<String>) -> Option<Taken>
    ensures path { IfSome result (λ taken. taken.path ≡ path) }
    ensures value { option_map (λ taken. view taken.parent) result
        ≡ get_at (map string_bytes path.items) (view document.old) }
    ensures rest { view document.new
        ≡ change_at (λ _. null) (map string_bytes path.items) (view document.old) }
{
    let mut parent = Value::Null;
    if swap_at(document, path.as_slice(), &mut parent) {
        Some(Taken { path, parent })
    } else {
        None
    }
}

/// Puts a value back that was taken out, as it is now.
pub(crate) fn put_back(document: &mut Value, mut taken: Taken)
    ensures { view document.new ≡ change_at (λ _. view taken.parent)
        (map string_bytes taken.path.items) (view document.old) }
{
    swap_at(document, taken.path.as_slice(), &mut taken.parent);
}
