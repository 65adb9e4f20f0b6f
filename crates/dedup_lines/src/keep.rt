//! Which lines are kept.
ghost use Rattle.std.specs.Prelude.{◌↔◌, IsTrue, MatchOption};
ghost use Rattle.dedup_lines.specs.Arguments.{AskHelp, SayKeep, SayNothing, texts};

/// Which lines are kept.
#[derive(Clone, Copy, Debug, PartialEq)]
pub enum Keep {
    /// Each line at its first appearance.
    First,
    /// Each line at its last appearance.
    Last,
    /// Each line that is not among the last so many distinct lines.
    Window(usize),
}

impl Keep {
    /// Returns what the arguments of the program say, or `None` if they say nothing.
    pub fn from_arguments(arguments: &[String]) -> Option<Keep>
        ensures { MatchOption result (SayNothing (texts arguments.now))
            (SayKeep (texts arguments.now)) }
    {
        match arguments {
            [] => Some(Keep::First),
            [option] if option.as_str() == "--last" => Some(Keep::Last),
            [option, size] if option.as_str() == "--window" => match size.parse() {
                Ok(size) => Some(Keep::Window(size)),
                Err(_) => None,
            },
            _ => None,
        }
    }
}

/// Returns whether the arguments of the program ask for help.
pub fn ask_help(arguments: &[String]) -> bool
    ensures { IsTrue result ↔ AskHelp (texts arguments.now) }
{
    match arguments {
        [option] => option.as_str() == "--help",
        _ => false,
    }
}

/// Returns the word of wrong arguments that is not as the usage line has it, the first one, or the
/// last word if one is missing.
pub fn wrong_word(arguments: &[String]) -> &[u8] {
    match arguments {
        [option, size, word, ..]
            if option.as_str() == "--window" && size.parse::<usize>().is_ok() => { word.as_bytes() }
        [option, word, ..] if ["--last", "--window", "--help"].contains(&option.as_str()) => {
            word.as_bytes()
        }
        [word, ..] => word.as_bytes(),
        [] => b"",
    }
}
