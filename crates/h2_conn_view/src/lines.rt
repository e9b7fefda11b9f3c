//! The lines of the text of a connection's state, as values that write themselves. Definition: h2_spec's
//! `specs/Texts/Show.antt`.

ghost use Rattle.std.specs.Prelude.{◌≡◌, true};
ghost use Rattle.h2_spec.specs.Hpack.Field.{field};
ghost use Rattle.h2_conn_view.specs.Lines.{window_text};
ghost use Rattle.h2_spec.specs.Texts.Show.{phase_line, phase_text, peer_line, acked_line, own_line, goaway_text, block_line, table_line, entry_line, stream_line, stream_line_as, kind_text, option_text, flag_text};

use crate::hex_text::OctetsText;
use h2_io::{DeviceFault, Number, Output, SignedNumber, Text, texts};
use h2_spec::connection::{BlockView, ConnectionState, Phase};
use h2_spec::flow::{LocalSettings, Settings, Window};
use h2_spec::streams::{StreamState, StreamView};
use h2_streams::is_live;

/// A number, and a dash where there is none.
#[derive(Drop)]
struct OptionText(Option<u64>);

#[tactic(auto, unfolding(h2_spec::specs::Texts::Show::option_text))]
impl Text for OptionText {
    ghost text = { λ x. option_text x.0 };

    fn write_to<O: Output>(&self, output: &mut O) -> Result<(), DeviceFault> {
        match self.0 {
            None => "-".write_to(output),
            Some(number) => Number(number).write_to(output),
        }
    }
}

/// 0 or 1.
#[derive(Drop)]
struct FlagText(bool);

#[tactic(auto, unfolding(h2_spec::specs::Texts::Show::flag_text))]
impl Text for FlagText {
    ghost text = { λ x. flag_text x.0 };

    fn write_to<O: Output>(&self, output: &mut O) -> Result<(), DeviceFault> {
        if self.0 {
            "1".write_to(output)
        } else {
            "0".write_to(output)
        }
    }
}

/// A phase by its name, the end with its code.
#[derive(Drop)]
struct PhaseText(Phase);

#[tactic(auto, unfolding(h2_spec::specs::Texts::Show::phase_text))]
impl Text for PhaseText {
    ghost text = { λ x. phase_text x.0 };

    fn write_to<O: Output>(&self, output: &mut O) -> Result<(), DeviceFault> {
        match self.0 {
            Phase::Preface => "preface".write_to(output),
            Phase::Settings => "settings".write_to(output),
            Phase::Running => "running".write_to(output),
            Phase::Ended(code) => {
                texts!("ended ", Number(u64::from(code.number()))).write_to(output)
            },
        }
    }
}

/// The last stream and the code of a GOAWAY, and a dash where none came.
#[derive(Drop)]
struct GoawayText(Option<(u32, u32)>);

#[tactic(auto, unfolding(h2_spec::specs::Texts::Show::goaway_text))]
impl Text for GoawayText {
    ghost text = { λ x. goaway_text x.0 };

    fn write_to<O: Output>(&self, output: &mut O) -> Result<(), DeviceFault> {
        match self.0 {
            None => "-".write_to(output),
            Some((last, code)) => {
                texts!(Number(u64::from(last)), " ", Number(u64::from(code))).write_to(output)
            }
        }
    }
}

/// The phase of the connection, and the last stream that was opened.
#[derive(Drop)]
pub struct PhaseLine<'c>(pub &'c ConnectionState);

#[tactic(auto, unfolding(h2_spec::specs::Texts::Show::phase_line))]
impl Text for PhaseLine<'_> {
    ghost text = { λ x. phase_line x.0.now.phase x.0.now.last };

    fn write_to<O: Output>(&self, output: &mut O) -> Result<(), DeviceFault> {
        let phase = PhaseText(self.0.phase);
        let last = Number(u64::from(self.0.last));
        texts!("phase ", phase, " last ", last, "\n").write_to(output)
    }
}

/// The octets that a window still holds (RFC 9113, 6.9).
fn window_number(window: Window) -> SignedNumber
    ensures { result.0 ≡ window }
{
    SignedNumber(window.value())
}

/// The windows of the connection, and what is owed on it.
#[derive(Drop)]
pub struct WindowLine<'c>(pub &'c ConnectionState);

#[tactic(auto, unfolding(crate::specs::Lines::window_text))]
impl Text for WindowLine<'_> {
    ghost text = { λ x. window_text x.0.now.recv x.0.now.owed x.0.now.send };

    fn write_to<O: Output>(&self, output: &mut O) -> Result<(), DeviceFault> {
        let recv = window_number(self.0.recv);
        let owed = Number(u64::from(self.0.owed.owed()));
        let send = window_number(self.0.send);
        texts!("window recv ", recv, " owed ", owed, " send ", send, "\n").write_to(output)
    }
}

/// The number in 64 bits.
fn widened(number: Option<u32>) -> Option<u64>
    ensures { result ≡ number }
{
    number.map(u64::from)
}

/// The peer's settings.
#[derive(Drop)]
pub struct PeerLine<'c>(pub &'c Settings);

#[tactic(auto, unfolding(h2_spec::specs::Texts::Show::peer_line))]
impl Text for PeerLine<'_> {
    ghost text = { λ x. peer_line x.0.now };

    fn write_to<O: Output>(&self, output: &mut O) -> Result<(), DeviceFault> {
        texts!(
            "peer table ",
            Number(u64::from(self.0.header_table)),
            " push ",
            Number(u64::from(self.0.push)),
            " streams ",
            OptionText(widened(self.0.streams)),
            " window ",
            Number(u64::from(self.0.window)),
            " frame ",
            Number(u64::from(self.0.frame)),
            " list ",
            OptionText(widened(self.0.list)),
            " signal ",
            FlagText(self.0.size_update_pending),
            "\n",
        )
        .write_to(output)
    }
}

/// Whether the server's settings are acknowledged, and the latest GOAWAY.
#[derive(Drop)]
pub struct AckedLine<'c>(pub &'c ConnectionState);

#[tactic(auto, unfolding(h2_spec::specs::Texts::Show::acked_line))]
impl Text for AckedLine<'_> {
    ghost text = { λ x. acked_line x.0.now.acked x.0.now.goaway };

    fn write_to<O: Output>(&self, output: &mut O) -> Result<(), DeviceFault> {
        let acked = FlagText(self.0.acked);
        let goaway = GoawayText(self.0.goaway);
        texts!("acked ", acked, " goaway ", goaway, "\n").write_to(output)
    }
}

/// The server's settings that are in force, and whether the next field block has to begin with a size update (RFC 9113,
/// 6.5.3; RFC 7541, 4.2).
#[derive(Drop)]
pub struct OwnLine {
    /// The server's settings in force.
    pub own: LocalSettings,
    /// Whether a size update is due.
    pub due: bool,
}

#[tactic(auto, unfolding(h2_spec::specs::Texts::Show::own_line))]
impl Text for OwnLine {
    ghost text = { λ x. own_line x.own x.due };

    fn write_to<O: Output>(&self, output: &mut O) -> Result<(), DeviceFault> {
        let table = Number(u64::from(self.own.table));
        let window = Number(u64::from(self.own.window));
        let frame = Number(u64::from(self.own.frame));
        let due = FlagText(self.due);
        texts!(
            "own table ",
            table,
            " window ",
            window,
            " frame ",
            frame,
            " due ",
            due,
            "\n"
        )
        .write_to(output)
    }
}

/// The open field block, and a dash where there is none.
#[derive(Drop)]
pub struct BlockLine(pub Option<BlockView>);

#[tactic(auto, unfolding(h2_spec::specs::Texts::Show::block_line))]
impl Text for BlockLine {
    ghost text = { λ x. block_line x.0 };

    fn write_to<O: Output>(&self, output: &mut O) -> Result<(), DeviceFault> {
        let Some(block) = &self.0 else {
            return "block -\n".write_to(output);
        };
        let stream = Number(u64::from(block.stream));
        let octets = Number(block.octets as u64);
        let list = Number(block.list_size);
        let ends = FlagText(block.ends);
        texts!(
            "block stream ",
            stream,
            " octets ",
            octets,
            " list ",
            list,
            " ends ",
            ends,
            "\n"
        )
        .write_to(output)
    }
}

/// How many entries the header table has, what they count, and its maximum.
#[derive(Drop)]
pub struct TableLine {
    /// How many entries there are.
    pub count: usize,
    /// What they count together, in octets.
    pub size: usize,
    /// The most that they may count, in octets.
    pub max: u32,
}

#[tactic(auto, unfolding(h2_spec::specs::Texts::Show::table_line))]
impl Text for TableLine {
    ghost text = { λ x. table_line x.count x.size x.max };

    fn write_to<O: Output>(&self, output: &mut O) -> Result<(), DeviceFault> {
        let count = Number(self.count as u64);
        let size = Number(self.size as u64);
        let max = Number(u64::from(self.max));
        texts!("table ", count, " ", size, " ", max, "\n").write_to(output)
    }
}

/// An entry of the dynamic table, by its index in both tables: 62 is the newest (RFC 7541, 2.3.3).
#[derive(Drop)]
pub struct EntryLine<'t> {
    /// The index, 62 or more.
    pub index: usize,
    /// The octets of the name.
    pub name: &'t [u8],
    /// The octets of the value.
    pub value: &'t [u8],
}

#[tactic(auto, unfolding(h2_spec::specs::Texts::Show::entry_line))]
impl Text for EntryLine<'_> {
    ghost text = { λ x. entry_line x.index (field x.name.now x.value.now) };

    fn write_to<O: Output>(&self, output: &mut O) -> Result<(), DeviceFault> {
        let name = OctetsText(self.name);
        let value = OctetsText(self.value);
        let index = Number(self.index as u64);
        texts!("entry ", index, " ", name, " ", value, "\n").write_to(output)
    }
}

/// The name of a stream's state.
#[tactic(auto, unfolding(h2_spec::specs::Texts::Show::kind_text))]
fn kind_name(kind: StreamState) -> &'static str
    ensures { result.now ≡ kind_text kind }
{
    match kind {
        StreamState::Idle => "idle",
        StreamState::Skipped => "skipped",
        StreamState::BothOpen => "open",
        StreamState::HalfRemote => "half-remote",
        StreamState::HalfLocal => "half-local",
        StreamState::Ended => "ended",
        StreamState::PeerReset => "peer-reset",
        StreamState::WeReset => "we-reset",
    }
}

/// A live stream with its numbers.
#[derive(Drop)]
struct LiveLine(StreamView);

#[tactic(auto, unfolding(h2_spec::specs::Texts::Show::stream_line_as))]
impl Text for LiveLine {
    ghost text = { λ x. stream_line_as true x.0 };

    fn write_to<O: Output>(&self, output: &mut O) -> Result<(), DeviceFault> {
        let numbers = &self.0.numbers;
        texts!(
            "stream ",
            Number(u64::from(self.0.id)),
            " ",
            kind_name(self.0.kind),
            " recv ",
            window_number(numbers.recv),
            " owed ",
            Number(u64::from(numbers.owed.owed())),
            " send ",
            window_number(numbers.send),
            " got ",
            Number(numbers.content_received),
            " of ",
            OptionText(numbers.declared),
            " left ",
            OptionText(numbers.body_remaining),
            "\n",
        )
        .write_to(output)
    }
}

/// A stream that has a record: a live one with its numbers, another with its state alone.
#[derive(Drop)]
pub struct StreamLine(pub StreamView);

#[tactic(auto, unfolding(h2_spec::specs::Texts::Show::stream_line, h2_spec::specs::Texts::Show::stream_line_as))]
impl Text for StreamLine {
    ghost text = { λ x. stream_line x.0 };

    fn write_to<O: Output>(&self, output: &mut O) -> Result<(), DeviceFault> {
        if is_live(self.0.kind) {
            return LiveLine(self.0).write_to(output);
        }
        let id = Number(u64::from(self.0.id));
        let kind = kind_name(self.0.kind);
        texts!("stream ", id, " ", kind, "\n").write_to(output)
    }
}
