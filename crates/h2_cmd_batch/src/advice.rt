//! Advice about the words of a command, on standard error. Definitions: `specs/Advice.antt`.

ghost use Rattle.std.specs.Prelude.{◌≡◌, ◌⊎◌, IfOk, false, string_bytes};
ghost use Rattle.std.specs.Io.KnownBytes.{Appends};
ghost use Rattle.h2_cmd_args.specs.Plans.{batch_asked};
ghost use Rattle.h2_cmd_batch.specs.CommandEnd.{asks_why_batch};
ghost use Rattle.h2_cmd_batch.specs.Advice.{is_advised, window_sentence};

use h2_cmd_args::command::Batch;
use h2_io::Output;
use h2_spec::connection::Config;
use std::alloc::{AllocError, Global};

/// What there is to say of a window that is below the credit, as a sentence on its own line.
fn window_sentence(alloc: Global, config: Config) -> Result<String, AllocError>
    ensures { IfOk result (λ text. string_bytes text ≡ window_sentence config) }
{
    let (window, credit) = (config.window, config.credit);
    format!(in alloc;
        "--window {window} is below --credit {credit}: a longer upload stops, since octets are returned only once {credit} of them are owed.\n"
    )
}

/// Writes a sentence where the server's SETTINGS_INITIAL_WINDOW_SIZE is below the credit: then a stream's window can be
/// spent before its octets are returned (RFC 9113, 6.9). What can't be written is left out.
///
/// Nothing is written unless sentences are asked for, or where a limit or a setting is out of range.
pub fn advise<E: Output>(alloc: Global, config: Config, why: bool, errors: &mut E)
    ensures quiet { why ≡ false → errors.new ≡ errors.old }
    ensures fits { is_advised config ≡ false → errors.new ≡ errors.old }
    ensures text { E.has_failed errors.new ≡ false → (errors.new ≡ errors.old) ⊎ Appends (E.written errors.old) (E.written errors.new) (window_sentence config) }
    ensures name { E.name errors.new ≡ E.name errors.old }
{
    if !why || config.window >= config.credit || !config.is_allowed() {
        return;
    }
    if let Ok(text) = window_sentence(alloc, config) {
        let _ = errors.write(text.as_bytes());
    }
}

/// As `advise`, for a command that reads its whole input: of these only `play` has limits and settings.
pub(crate) fn advise_batch<E: Output>(alloc: Global, batch: &Batch<'_>, errors: &mut E)
    ensures quiet { asks_why_batch (batch_asked batch.now) ≡ false → errors.new ≡ errors.old }
    ensures name { E.name errors.new ≡ E.name errors.old }
{
    match batch {
        Batch::Play(play) => advise(alloc, play.config, play.book.why, errors),
        Batch::Asm(_) | Batch::Dis(_, _) | Batch::Table(_, _) => {}
    }
}
