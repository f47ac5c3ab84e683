//! Whether a command was accepted, as its reply says.

ghost use Rattle.std.specs.Prelude.{◌≡◌, ◌<◌, List, [], ◌∷◌, ◌++◌, length};
ghost use Rattle.pm_model.specs.declared.reply.Reply.{Reply};
ghost use Rattle.pm_part.specs.Commands.{accepts};

use pm_model::{Cmd, Replies, Reply};

/// Whether a command, whose reply was appended last, was accepted.
pub(crate) fn was_accepted(cmd: &Cmd, replies: &Replies) -> bool
    requires { 0 < length replies.now.replies }
    ensures { (before : List Reply) (reply : Reply) → replies.now.replies ≡ before ++ reply ∷ []
        → result ≡ accepts cmd.now reply }
{
    is_accepted(cmd, replies.get(replies.len() - 1))
}

// Whether a command with this reply was accepted.
fn is_accepted(cmd: &Cmd, reply: &Reply) -> bool
    ensures { result ≡ accepts cmd.now reply.now }
{
    match (cmd, reply) {
        (Cmd::Put { .. }, Reply::Done) => true,
        (Cmd::Remove { .. }, Reply::Was(was)) => *was,
        _ => false,
    }
}
