//! What keeps the connections to which a script is played.

use h2_serve::{Keeper, NoKeeper};

/// What keeps the octets and the items of connections, and what a script made of them. It changes nothing of a connection, and has
/// to remember itself what failed.
pub trait ScriptKeeper: Keeper {
    /// The connections are served with the words `;@` of these lines of a file of dialogues; `have_answers` is whether these say the
    /// answers, else the command line does.
    fn keep_words(&mut self, file: &str, lines: &[&[u8]], have_answers: bool);

    /// These frames of the server for the last item, or for the beginning, did not go out.
    fn keep_withheld(&mut self, octets: &[u8]);

    /// The script has sent these after them.
    fn keep_script(&mut self, octets: &[u8]);
}

impl ScriptKeeper for NoKeeper {
    fn keep_words(&mut self, _file: &str, _lines: &[&[u8]], _have_answers: bool) {}

    fn keep_withheld(&mut self, _octets: &[u8]) {}

    fn keep_script(&mut self, _octets: &[u8]) {}
}
