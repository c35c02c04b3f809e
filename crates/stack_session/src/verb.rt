//! The names of a session's commands.
ghost use Rattle.std.specs.Prelude.{◌≡◌};
ghost use Rattle.stack_session.specs.Commands.{verb_of};

/// A command of a session.
#[derive(Clone, Copy, Debug, PartialEq, Eq)]
pub enum Verb {
    Load,
    Read,
    Write,
    Submit,
    Step,
    Remove,
    Cost,
    Table,
    Moved,
}

/// Returns the command of that name.
#[tactic(auto, unfolding(crate::specs::Commands::verb_of))]
pub fn verb_of(word: &[u8]) -> Option<Verb>
    ensures { result ≡ verb_of word.now }
{
    if word == b"load".as_slice() {
        Some(Verb::Load)
    } else if word == b"read".as_slice() {
        Some(Verb::Read)
    } else if word == b"write".as_slice() {
        Some(Verb::Write)
    } else if word == b"submit".as_slice() {
        Some(Verb::Submit)
    } else if word == b"step".as_slice() {
        Some(Verb::Step)
    } else if word == b"remove".as_slice() {
        Some(Verb::Remove)
    } else if word == b"cost".as_slice() {
        Some(Verb::Cost)
    } else if word == b"table".as_slice() {
        Some(Verb::Table)
    } else if word == b"moved".as_slice() {
        Some(Verb::Moved)
    } else {
        None
    }
}
