//! Each public signature, called with exactly the types that it names. A function has the name of its
//! call, after the name of its type if a module has several.

mod map;
mod types;
mod walks;

#[test]
fn all(rt: HostRuntime) {
    let mut map = map::new(rt.alloc());
    map::make_maps(&rt, rt.alloc());
    map::change(&rt, rt.alloc(), &mut map);
    map::call_traits(&rt, rt.alloc(), map);
    walks::call_vacant(&rt, rt.alloc());
    walks::walk(&rt, rt.alloc());
    types::run_commands(&rt, rt.alloc());
    types::keep_sessions(&rt, rt.alloc());
    types::use_types(&rt, rt.alloc());
}
