// The commands of the program, and their options.
ghost use Rattle.std.specs.Prelude.{◌≡◌};
ghost use Rattle.dyl_words.specs.Words.{command_word, option_word, options_of, command_named, takes_plain};

/// A command of the program.
#[derive(Clone, Copy, Debug, PartialEq, Eq)]
pub enum CommandName {
    /// Merges a set into one module.
    Merge,
    /// Runs a set.
    Run,
    /// Runs one module.
    Exec,
    /// Lists a set.
    Plan,
    /// Makes a set, and runs it loaded and merged.
    Gen,
    /// Runs a set or one module, and writes the trace of the run.
    Trace,
    /// Checks that a trace is that of a run.
    Replay,
    /// Runs a set up to its entry, and writes the module that goes on from there.
    Snap,
    /// Runs several sets in turns.
    Board,
}

/// An option of a command.
#[derive(Clone, Copy, Debug, PartialEq, Eq)]
pub enum OptionName {
    /// Names of modules that may be opened later.
    Dl,
    /// Directories to search.
    Path,
    /// The most pages of memory.
    Pages,
    /// The bytes of the stack.
    Stack,
    /// Whether a name may be defined but once. It has no value.
    NoDuplicates,
    /// The most steps of a run.
    Steps,
    /// The most steps of a turn.
    Slice,
    /// The most turns of a board.
    Turns,
    /// Whether the main module is run alone, without its set. It has no value.
    One,
}

/// The options of a command over a set.
const SET_OPTIONS: [OptionName; 5] = [
    OptionName::Dl,
    OptionName::Path,
    OptionName::Pages,
    OptionName::Stack,
    OptionName::NoDuplicates,
];

/// The options of a command that runs a set.
const RUN_OPTIONS: [OptionName; 6] = [
    OptionName::Dl,
    OptionName::Path,
    OptionName::Pages,
    OptionName::Stack,
    OptionName::NoDuplicates,
    OptionName::Steps,
];

/// The options of a command that runs a set, or one module in its place.
const TRACE_OPTIONS: [OptionName; 7] = [
    OptionName::Dl,
    OptionName::Path,
    OptionName::Pages,
    OptionName::Stack,
    OptionName::NoDuplicates,
    OptionName::Steps,
    OptionName::One,
];

/// The options of a command that runs one module.
const EXEC_OPTIONS: [OptionName; 1] = [OptionName::Steps];

/// The options of a command that makes a set.
const GEN_OPTIONS: [OptionName; 2] = [OptionName::Pages, OptionName::Steps];

/// The options of a command that runs several sets in turns.
const BOARD_OPTIONS: [OptionName; 5] = [
    OptionName::Pages,
    OptionName::Stack,
    OptionName::Steps,
    OptionName::Slice,
    OptionName::Turns,
];

/// The most main modules of a board.
const MOST_MAINS: usize = 64;

impl CommandName {
    // The options that the command takes.
    pub(crate) fn options(self) -> &'static [OptionName]
        ensures { result.now ≡ options_of self }
    {
        match self {
            CommandName::Merge | CommandName::Plan => &SET_OPTIONS,
            CommandName::Run | CommandName::Snap => &RUN_OPTIONS,
            CommandName::Exec => &EXEC_OPTIONS,
            CommandName::Gen => &GEN_OPTIONS,
            CommandName::Trace | CommandName::Replay => &TRACE_OPTIONS,
            CommandName::Board => &BOARD_OPTIONS,
        }
    }

    // Whether it takes so many plain words.
    pub(crate) fn takes_plain(self, count: usize) -> bool
        ensures { result ≡ takes_plain self count }
    {
        match self {
            CommandName::Merge | CommandName::Replay | CommandName::Snap => count == 2,
            CommandName::Run | CommandName::Exec => count >= 1,
            CommandName::Plan | CommandName::Gen => count == 1,
            CommandName::Trace => count >= 2,
            CommandName::Board => count >= 1 && count <= MOST_MAINS,
        }
    }

    // The command as it is written.
    pub(crate) fn word<'a>(self) -> &'a str
        ensures { result.now ≡ command_word self }
    {
        match self {
            CommandName::Merge => "merge",
            CommandName::Run => "run",
            CommandName::Exec => "exec",
            CommandName::Plan => "plan",
            CommandName::Gen => "gen",
            CommandName::Trace => "trace",
            CommandName::Replay => "replay",
            CommandName::Snap => "snap",
            CommandName::Board => "board",
        }
    }

    /// The command that is written so, if there is one.
    pub fn of(word: &str) -> Option<CommandName>
        ensures { result ≡ command_named word.now }
    {
        match word {
            "merge" => Some(CommandName::Merge),
            "run" => Some(CommandName::Run),
            "exec" => Some(CommandName::Exec),
            "plan" => Some(CommandName::Plan),
            "gen" => Some(CommandName::Gen),
            "trace" => Some(CommandName::Trace),
            "replay" => Some(CommandName::Replay),
            "snap" => Some(CommandName::Snap),
            "board" => Some(CommandName::Board),
            _ => None,
        }
    }
}

impl OptionName {
    // The option as it is written, without its two hyphens.
    pub(crate) fn word<'a>(self) -> &'a str
        ensures { result.now ≡ option_word self }
    {
        match self {
            OptionName::Dl => "dl",
            OptionName::Path => "path",
            OptionName::Pages => "pages",
            OptionName::Stack => "stack",
            OptionName::NoDuplicates => "no-duplicates",
            OptionName::Steps => "steps",
            OptionName::Slice => "slice",
            OptionName::Turns => "turns",
            OptionName::One => "one",
        }
    }
}
