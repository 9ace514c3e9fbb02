//! The commands of the program, by their names and by what each is asked of.
ghost use Rattle.std.specs.Prelude.{◌≡◌, ◌↔◌, Some};
ghost use Rattle.pg_cli.specs.Words.{name_of};

// A command of the program.
#[derive(Clone, Copy)]
pub(crate) enum Command {
    /// One of a problem, which the words DIAGRAM and LENGTH spell, and of a list of games.
    OfProblem(ProblemCommand),
    /// A certificate is checked, for a problem and a list of games.
    Check,
    /// A certificate is searched for, written and checked, for a problem.
    Search,
    /// One of a certificate, which the word CERT names, and of the problem of its header.
    OfCertificate(CertificateCommand),
    /// Any other.
    Other(OtherCommand),
}

#[derive(Clone, Copy)]
pub(crate) enum ProblemCommand {
    /// What a list of games shows by itself.
    Games,
    /// A game beside those of a list.
    Cooks,
}

#[derive(Clone, Copy)]
pub(crate) enum CertificateCommand {
    /// A certificate gives its games.
    Answer,
    /// A certificate explains a line of moves.
    Why,
    /// A certificate is shown as a page.
    Page,
}

#[derive(Clone, Copy)]
pub(crate) enum OtherCommand {
    /// What is known at once of a diagram.
    Show,
    /// The legal moves of a position.
    Moves,
    /// How many games there are from a position.
    Count,
    /// A problem is judged, and what is found of it is told as a report.
    Solve,
    /// The problems of a file are judged.
    Judge,
    /// A certificate of version 1 is copied as one of version 2.
    Upgrade,
    /// Games in PGN are written as a list.
    Pgn,
    /// Where the games of a list end.
    End,
}

impl Command {
    // The command with this name; none has another name.
    pub(crate) fn named(name: &str) -> Option<Command>
        ensures { (command : Command) → (result ≡ Some command) ↔ (name.now ≡ name_of command) }
    {
        match name {
            "show" => Some(Command::Other(OtherCommand::Show)),
            "moves" => Some(Command::Other(OtherCommand::Moves)),
            "count" => Some(Command::Other(OtherCommand::Count)),
            "games" => Some(Command::OfProblem(ProblemCommand::Games)),
            "cooks" => Some(Command::OfProblem(ProblemCommand::Cooks)),
            "check" => Some(Command::Check),
            "answer" => Some(Command::OfCertificate(CertificateCommand::Answer)),
            "search" => Some(Command::Search),
            "solve" => Some(Command::Other(OtherCommand::Solve)),
            "judge" => Some(Command::Other(OtherCommand::Judge)),
            "why" => Some(Command::OfCertificate(CertificateCommand::Why)),
            "page" => Some(Command::OfCertificate(CertificateCommand::Page)),
            "upgrade" => Some(Command::Other(OtherCommand::Upgrade)),
            "pgn" => Some(Command::Other(OtherCommand::Pgn)),
            "end" => Some(Command::Other(OtherCommand::End)),
            _ => None,
        }
    }
}
