// The commands, and the words with which their command lines begin.
ghost use Rattle.std.specs.Prelude.{◌≡◌, ◌≢◌, IfSome, IfNone};
ghost use Rattle.polis_words.specs.Commands.{word_of};
ghost use Rattle.polis_words.specs.declared.requests.command.Command.{Command};

/// What is shown of a network.
#[derive(Clone, Copy)]
pub enum OnNet {
    /// Whether it is accepted, and how large it is.
    Check,
    /// What its tables leave open.
    Lint,
}

/// What is saved of a network.
#[derive(Clone, Copy)]
pub enum FromNet {
    /// The listing of its compiled machines.
    Compile,
    /// The code of its machines, as an image.
    Image,
    /// Pictures of it and of its machines' graphs.
    Draw,
}

/// What is shown of a legal journal.
#[derive(Clone, Copy)]
pub enum OnJournal {
    /// What became of its deliveries.
    Losses,
    /// What it used of its network's tables.
    Cover,
}

/// What is saved of a legal journal.
#[derive(Clone, Copy)]
pub enum FromJournal {
    /// The journal with its least stamps.
    Migrate,
    /// The journal as a wave.
    Wave,
}

/// A command, by the form of its command lines.
#[derive(Clone, Copy)]
pub enum Command {
    Run,
    OnNet(OnNet),
    FromNet(FromNet),
    Replay,
    OnJournal(OnJournal),
    FromJournal(FromJournal),
    Demo,
    Bound,
    Equiv,
    Explain,
    Shuffle,
    Watch,
    Survey,
    Chart,
}

/// The command that a word names.
pub fn command_named(word: &str) -> Option<Command>
    ensures some { IfSome result (λ command. word.now ≡ word_of command) }
    ensures none { IfNone result ((command : Command) → word.now ≢ word_of command) }
{
    match word {
        "run" => Some(Command::Run),
        "check" => Some(Command::OnNet(OnNet::Check)),
        "lint" => Some(Command::OnNet(OnNet::Lint)),
        "compile" => Some(Command::FromNet(FromNet::Compile)),
        "image" => Some(Command::FromNet(FromNet::Image)),
        "draw" => Some(Command::FromNet(FromNet::Draw)),
        "replay" => Some(Command::Replay),
        "losses" => Some(Command::OnJournal(OnJournal::Losses)),
        "cover" => Some(Command::OnJournal(OnJournal::Cover)),
        "migrate" => Some(Command::FromJournal(FromJournal::Migrate)),
        "wave" => Some(Command::FromJournal(FromJournal::Wave)),
        "demo" => Some(Command::Demo),
        "bound" => Some(Command::Bound),
        "equiv" => Some(Command::Equiv),
        "explain" => Some(Command::Explain),
        "shuffle" => Some(Command::Shuffle),
        "watch" => Some(Command::Watch),
        "survey" => Some(Command::Survey),
        "chart" => Some(Command::Chart),
        _ => None,
    }
}
