//! The program of README.md: on which line each word was last, in the order of last use.
#![tactic(auto)]

use linked_hash_map::LinkedHashMap;
use std::io;

fn main(rt: HostRuntime) -> io::Result<()> {
    let mut lines = LinkedHashMap::new(rt.alloc());
    for (line, word) in [(1, "tea"), (2, "milk"), (3, "jam"), (4, "tea")] {
        // A `String` key is found by a `&str`, and its pair moves to the back.
        if let Some(last) = lines.get_refresh(word) {
            *last = line;
        } else {
            lines.insert(word.to_string(rt.alloc())?, line)?;
        }
    }
    println!(rt; "{lines:?}")?; // {"milk": 2, "jam": 3, "tea": 4}
    lines.retain(|_word, last| *last > 2);
    for (word, last) in &lines {
        println!(rt; "{word} {last}")?; // jam 3, and then tea 4
    }
    Ok(())
}
