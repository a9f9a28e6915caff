//! The words that begin a script's lines, and which command's scripts know them.

ghost use Rattle.std.specs.Prelude.{◌≡◌};
ghost use Rattle.scripts.specs.Keywords.{keyword_name, keyword_said, first_named, knows};

/// The command that reads a script.
#[derive(Clone, Copy, Debug, PartialEq, Eq)]
pub enum Command {
    /// Verifies the procedures.
    Verify,
    /// Makes the steps of a world.
    World,
    /// Runs calls by workers.
    Run,
}

/// A word that begins a line and names no instruction; `call` names both.
#[derive(Clone, Copy, Debug, PartialEq, Eq)]
pub enum Keyword {
    Dc,
    Proc,
    Slot,
    End,
    Admit,
    Ask,
    Undo,
    Resend,
    Perform,
    Take,
    Restart,
    Checkpoint,
    Tell,
    Redo,
    Crash,
    Cut,
    Forge,
    First,
    Call,
}

const KEYWORDS: [Keyword; 19] = [
    Keyword::Dc,
    Keyword::Proc,
    Keyword::Slot,
    Keyword::End,
    Keyword::Admit,
    Keyword::Ask,
    Keyword::Undo,
    Keyword::Resend,
    Keyword::Perform,
    Keyword::Take,
    Keyword::Restart,
    Keyword::Checkpoint,
    Keyword::Tell,
    Keyword::Redo,
    Keyword::Crash,
    Keyword::Cut,
    Keyword::Forge,
    Keyword::First,
    Keyword::Call,
];

// The first of these that has this name.
fn first_named(keywords: &[Keyword], word: &[u8]) -> Option<Keyword>
    ensures { result ≡ first_named keywords.now word.now }
{
    'names: for keyword in keywords {
        if word == keyword.name().as_bytes() {
            return Some(*keyword);
        }
    }
    None
}

impl Keyword {
    /// Its text.
    pub fn name(self) -> &'static str
        ensures { result.now ≡ keyword_name self }
    {
        match self {
            Keyword::Dc => "dc",
            Keyword::Proc => "proc",
            Keyword::Slot => "slot",
            Keyword::End => "end",
            Keyword::Admit => "admit",
            Keyword::Ask => "ask",
            Keyword::Undo => "undo",
            Keyword::Resend => "resend",
            Keyword::Perform => "perform",
            Keyword::Take => "take",
            Keyword::Restart => "restart",
            Keyword::Checkpoint => "checkpoint",
            Keyword::Tell => "tell",
            Keyword::Redo => "redo",
            Keyword::Crash => "crash",
            Keyword::Cut => "cut",
            Keyword::Forge => "forge",
            Keyword::First => "first",
            Keyword::Call => "call",
        }
    }

    /// The keyword that a word is, if it is one.
    pub fn parse(word: &[u8]) -> Option<Keyword>
        ensures { result ≡ keyword_said word.now }
    {
        first_named(&KEYWORDS, word)
    }
}

impl Command {
    /// Whether the command's scripts know the word.
    pub fn knows(self, keyword: Keyword) -> bool
        ensures { result ≡ knows self keyword }
    {
        match keyword {
            Keyword::Dc | Keyword::Proc | Keyword::Slot | Keyword::End => true,
            Keyword::First | Keyword::Call => self == Command::Run,
            _ => self == Command::World,
        }
    }
}
