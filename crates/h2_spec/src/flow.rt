//! Windows, credit and settings: the small values that flow control counts with (RFC 9113, 5.2, 6.5.2 and 6.9).
//! Definitions: `specs/Window.antt`, `specs/Settings.antt`.

ghost use Rattle.std.specs.Prelude.{◌≡◌, ℕ, ℤ, pos, negsuc, ◌+◌, ◌<◌, ◌≤◌, ◌^◌, ◌-ℤ◌, ◌+ℤ◌, ◌≤ℤ◌, ◌↔◌, ◌&&◌, nat_le, int_lt, IsOk, OnOk, IfErr};
ghost use Rattle.h2_spec.specs.Window.{max_window, given_back, still_owed};
ghost use Rattle.h2_spec.specs.Settings.{initial, initial_local_settings, with_setting, window_change, settings_or};

use crate::causes::Cause;
use crate::errors::FlowFault;
use std::marker::Model;

/// The largest window (RFC 9113, 6.9.1).
pub const MAX_WINDOW: u32 = 2_147_483_647;

/// A flow-control window: how many octets may still come or go, at most 2147483647 (RFC 9113, 6.9.1).
///
/// Settings can make it negative (RFC 9113, 6.9.2); nothing then goes until it has risen above 0. Contracts see the
/// integer.
#[derive(Clone, Copy)]
pub struct Window {
    size: i32,
}

impl Model for Window {
    ghost use Rattle.std.specs.Prelude.{ℤ};

    ghost Value = { ℤ };

    ghost view = { λ w. w.size };

    ghost inverse = { λ z. record { size = z } };
}

impl Window {
    /// A window of this many octets, at most 2147483647.
    pub fn start(value: u32) -> Self
        requires { value ≤ max_window }
        ensures { result ≡ pos value }
    {
        Window { size: value as i32 }
    }

    /// The octets that it holds, or how far it is below 0.
    pub fn value(self) -> i32
        ensures { result ≡ self }
    {
        self.size
    }

    /// Takes octets that are sent or received.
    ///
    /// `Exceeded` where it holds fewer; then it stays as it is.
    pub fn take(&mut self, count: u32) -> Result<(), FlowFault>
        ensures within { IsOk result ↔ (pos count ≤ℤ self.old) }
        ensures taken { OnOk result (self.new ≡ self.old -ℤ pos count) }
        ensures refused { IfErr result (λ e. (e ≡ FlowFault.Exceeded) × (self.new ≡ self.old)) }
    {
        let lacks = self.is_below(count);
        if lacks {
            return Err(FlowFault::Exceeded);
        }
        *self = self.minus(count);
        Ok(())
    }

    /// Adds the increment of a WINDOW_UPDATE (RFC 9113, 6.9.1).
    ///
    /// `Overflow` where it would pass 2147483647; then it stays as it is.
    pub fn add(&mut self, count: u32) -> Result<(), FlowFault>
        ensures fits { IsOk result ↔ ((self.old +ℤ pos count) ≤ℤ pos max_window) }
        ensures added { OnOk result (self.new ≡ self.old +ℤ pos count) }
        ensures refused { IfErr result (λ e. (e ≡ FlowFault.Overflow) × (self.new ≡ self.old)) }
    {
        if self.overflows(count) {
            return Err(FlowFault::Overflow);
        }
        *self = self.plus(count);
        Ok(())
    }

    /// Moves it by a change of SETTINGS_INITIAL_WINDOW_SIZE (RFC 9113, 6.9.2); it may become negative, not below
    /// -2147483648.
    ///
    /// `Overflow` where it would pass 2147483647; then it stays as it is.
    pub fn shift(&mut self, delta: i64) -> Result<(), FlowFault>
        requires { negsuc max_window ≤ℤ (self.old +ℤ delta) }
        ensures fits { IsOk result ↔ ((self.old +ℤ delta) ≤ℤ pos max_window) }
        ensures shifted { OnOk result (self.new ≡ self.old +ℤ delta) }
        ensures refused { IfErr result (λ e. (e ≡ FlowFault.Overflow) × (self.new ≡ self.old)) }
    {
        let size = i64::from(self.size);
        if delta > i64::from(MAX_WINDOW) - size {
            return Err(FlowFault::Overflow);
        }
        *self = self.shifted(delta);
        Ok(())
    }
}

/// As questions and new values, for rules that return a changed record.
impl Window {
    /// Whether it holds fewer octets than these.
    pub fn is_below(self, count: u32) -> bool
        ensures { result ≡ int_lt self (pos count) }
    {
        i64::from(self.size) < i64::from(count)
    }

    /// Without these octets; it may be negative, not below -2147483648.
    pub fn minus(self, count: u32) -> Window
        requires { negsuc max_window ≤ℤ (self -ℤ pos count) }
        ensures { result ≡ self -ℤ pos count }
    {
        self.shifted(-i64::from(count))
    }

    /// Whether it would pass 2147483647 with these octets.
    pub fn overflows(self, count: u32) -> bool
        ensures { result ≡ int_lt (pos max_window) (self +ℤ pos count) }
    {
        i64::from(self.size) + i64::from(count) > i64::from(MAX_WINDOW)
    }

    /// With these octets, where it does not pass 2147483647.
    pub fn plus(self, count: u32) -> Window
        requires { (self +ℤ pos count) ≤ℤ pos max_window }
        ensures { result ≡ self +ℤ pos count }
    {
        self.shifted(i64::from(count))
    }

    /// Whether it would pass 2147483647 where the initial window goes from one value to another (RFC 9113, 6.9.2).
    pub fn overflows_by(self, from: u32, to: u32) -> bool
        ensures { result ≡ int_lt (pos max_window) (self +ℤ (pos to -ℤ pos from)) }
    {
        from < to && self.overflows(to - from)
    }

    /// With this many octets more, or fewer where the number is negative; it may become negative, not below
    /// -2147483648.
    fn shifted(self, delta: i64) -> Window
        requires most { (self +ℤ delta) ≤ℤ pos max_window }
        requires least { negsuc max_window ≤ℤ (self +ℤ delta) }
        ensures { result ≡ self +ℤ delta }
    {
        Window {
            size: (i64::from(self.size) + delta) as i32,
        }
    }
}

/// Octets received that are not yet given back by WINDOW_UPDATE (RFC 9113, 6.9). Contracts see their number.
#[derive(Clone, Copy)]
pub struct Credit {
    octets: u32,
}

impl Model for Credit {
    ghost use Rattle.std.specs.Prelude.{ℕ};

    ghost Value = { ℕ };

    ghost view = { λ c. c.octets };

    ghost inverse = { λ n. record { octets = n } };
}

impl Credit {
    /// Nothing is owed.
    pub fn none() -> Self
        ensures { result ≡ 0 }
    {
        Credit { octets: 0 }
    }

    /// Owes the peer these octets too, and returns how many are to be given back now: all that are owed, once they
    /// reach the threshold.
    pub fn owe(&mut self, count: u32, threshold: u32) -> Option<u32>
        requires { self.old + count < 2 ^ 32 }
        ensures answer { result ≡ given_back threshold (self.old + count) }
        ensures owed { self.new ≡ still_owed threshold (self.old + count) }
    {
        *self = self.plus(count);
        let owed = self.octets;
        let keeps = owed < threshold;
        if keeps {
            return None;
        }
        *self = Credit::none();
        Some(owed)
    }

    /// With these octets too.
    pub fn plus(self, count: u32) -> Credit
        requires { self + count < 2 ^ 32 }
        ensures { result ≡ self + count }
    {
        Credit {
            octets: self.octets + count,
        }
    }

    /// The octets that are owed.
    pub fn owed(self) -> u32
        ensures { result ≡ self }
    {
        self.octets
    }
}

/// The identifiers of settings (RFC 9113, 6.5.2).
pub const SETTINGS_HEADER_TABLE_SIZE: u16 = 1;

pub const SETTINGS_ENABLE_PUSH: u16 = 2;

pub const SETTINGS_MAX_CONCURRENT_STREAMS: u16 = 3;

pub const SETTINGS_INITIAL_WINDOW_SIZE: u16 = 4;

pub const SETTINGS_MAX_FRAME_SIZE: u16 = 5;

pub const SETTINGS_MAX_HEADER_LIST_SIZE: u16 = 6;

/// What the peer's SETTINGS said last (RFC 9113, 6.5.2).
#[derive(Clone, Copy)]
pub struct Settings {
    /// SETTINGS_HEADER_TABLE_SIZE, in octets.
    pub header_table: u32,
    /// SETTINGS_ENABLE_PUSH, 0 or 1.
    pub push: u32,
    /// SETTINGS_MAX_CONCURRENT_STREAMS, if it was given.
    pub streams: Option<u32>,
    /// SETTINGS_INITIAL_WINDOW_SIZE, in octets, at most 2147483647.
    pub window: u32,
    /// SETTINGS_MAX_FRAME_SIZE, in octets, 16384 to 16777215.
    pub frame: u32,
    /// SETTINGS_MAX_HEADER_LIST_SIZE, in octets, if it was given.
    pub list: Option<u32>,
    /// Whether the next response has to begin with a table size update (RFC 7541, 4.2).
    pub size_update_pending: bool,
}

impl Settings {
    /// The settings of a peer that has sent none (RFC 9113, 6.5.2).
    pub fn initial() -> Self
        ensures { result ≡ initial }
    {
        Settings {
            header_table: 4096,
            push: 1,
            streams: None,
            window: 65_535,
            frame: 16_384,
            list: None,
            size_update_pending: false,
        }
    }

    /// Applies one setting, and returns by how much the initial window changes; other identifiers change nothing (RFC
    /// 9113, 6.5.2).
    ///
    /// `BadSetting` with the cause where the value is not allowed; then the settings stay as they are.
    #[tactic(auto, unfolding(crate::specs::Settings::with_setting))]
    pub fn apply(&mut self, id: u16, value: u32) -> Result<i64, FlowFault>
        ensures answer { result ≡ window_change self.old (with_setting self.old id value) }
        ensures settings { self.new ≡ settings_or self.old (with_setting self.old id value) }
    {
        let window = self.window;
        match id {
            SETTINGS_HEADER_TABLE_SIZE => {
                self.header_table = value;
                self.size_update_pending = true;
            }
            SETTINGS_ENABLE_PUSH => {
                if value > 1 {
                    return Err(FlowFault::BadSetting(Cause::EnablePushValue));
                }
                self.push = value;
            }
            SETTINGS_MAX_CONCURRENT_STREAMS => self.streams = Some(value),
            SETTINGS_INITIAL_WINDOW_SIZE => {
                if !is_window(value) {
                    return Err(FlowFault::BadSetting(Cause::InitialWindowSizeValue));
                }
                self.window = value;
            }
            SETTINGS_MAX_FRAME_SIZE => {
                if !is_frame_size(value) {
                    return Err(FlowFault::BadSetting(Cause::MaxFrameSizeValue));
                }
                self.frame = value;
            }
            SETTINGS_MAX_HEADER_LIST_SIZE => self.list = Some(value),
            _ => {}
        }
        Ok(i64::from(self.window) - i64::from(window))
    }
}

/// Whether a SETTINGS_INITIAL_WINDOW_SIZE is allowed (RFC 9113, 6.5.2).
fn is_window(value: u32) -> bool
    ensures { result ≡ nat_le value max_window }
{
    value <= MAX_WINDOW
}

/// Whether a SETTINGS_MAX_FRAME_SIZE is allowed (RFC 9113, 6.5.2).
fn is_frame_size(value: u32) -> bool
    ensures { result ≡ (nat_le 16384 value && nat_le value 16777215) }
{
    (16_384..=16_777_215).contains(&value)
}

/// The server's own settings that are in force.
#[derive(Clone, Copy)]
pub struct LocalSettings {
    /// The limit of the header table, in octets.
    pub table: u32,
    /// The receive window of a new stream, in octets.
    pub window: u32,
    /// The longest payload of a frame, in octets.
    pub frame: u32,
}

impl LocalSettings {
    /// The settings in force until the peer has acknowledged others (RFC 9113, 6.5.3).
    pub fn initial() -> Self
        ensures { result ≡ initial_local_settings }
    {
        LocalSettings {
            table: 4096,
            window: 65_535,
            frame: 16_384,
        }
    }
}
