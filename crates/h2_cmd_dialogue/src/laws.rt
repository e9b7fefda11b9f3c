//! Laws of a script. Each is the contract of a function with an empty body; definitions: `specs/Woven.antt`.

ghost use Rattle.std.specs.Prelude.{◌≡◌, List, [], ◌++◌};
ghost use Rattle.h2_cmd_dialogue.specs.Woven.{Answered, Weaving, sent_by_server, woven};

/// Without a script all goes out that the server sends, and nothing else.
pub fn an_empty_script_changes_nothing()
    ensures { (w : Weaving) (es : List Answered) → w.reset ≡ [] → woven [] w es ≡ sent_by_server es }
{}
