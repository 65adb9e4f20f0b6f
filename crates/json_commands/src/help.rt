//! What `--help` prints.

/// What the program does, its commands and its options.
pub const HELP: &str = "\
json_edit edits the JSON document of standard input by commands, and keeps all else in order.
get POINTER: takes the value there for the document
set POINTER JSON: sets the value there
remove POINTER: removes the value there
rename POINTER NAME: gives the member there another name, in its place
move POINTER before NAME, move POINTER after NAME: moves the member there beside another one
merge JSON: merges a patch into the document (RFC 7396)
sort POINTER: sorts the members there, and of all objects below, by their names
--compact, as the first argument: writes the document with no space
--file F: stands for the lines of F, each an argument; blank lines are left out
A POINTER (RFC 6901) or a NAME is a word, or a JSON string, which has \\u0020 for a space.
";
