//! Windows, credit and settings (RFC 9113, 5.2, 6.5.2, 6.9 and 6.9.2).

use crate::same::same;
use h2_flow::{Credit, MAX_WINDOW, Settings, Window, setting_code};

// These have no clause, so that the proof of the test does not carry what they count.

/// The rest of a window of 10 octets: 7 are taken, 4 more are not there, and an increment may be too large.
fn counted() -> ([bool; 4], i32) {
    let mut window = Window::start(10);
    let taken = window.take(7).is_ok();
    let exceeded = window.take(4).is_err();
    let overflow = window.add(MAX_WINDOW).is_err();
    let added = window.add(20).is_ok();
    ([taken, exceeded, overflow, added], window.value())
}

/// A window of 10 octets, where SETTINGS_INITIAL_WINDOW_SIZE goes from 65,535 to 65,515.
fn moved() -> (bool, i32) {
    let mut window = Window::start(10);
    (window.shift(-20).is_ok(), window.value())
}

/// What is given back where 16 octets are, and what is still owed.
fn credit() -> ([Option<u32>; 3], u32) {
    let mut credit = Credit::none();
    let given = [credit.owe(10, 16), credit.owe(6, 16), credit.owe(1, 16)];
    (given, credit.owed())
}

/// What a setting changes of the initial window, or the number of the error code.
fn applied(id: u16, value: u32) -> (Option<i64>, Option<u32>) {
    let mut settings = Settings::initial();
    match settings.apply(id, value) {
        Ok(change) => (Some(change), None),
        Err(fault) => match setting_code(fault) {
            Some(code) => (None, Some(code.number())),
            None => (None, None),
        },
    }
}

#[test]
fn octets_are_counted_and_settings_applied(rt: HostRuntime) {
    same(&rt, &counted(), &([true; 4], 23), &"a window");
    same(&rt, &moved(), &(true, -10), &"a window that settings move");
    let given = [None, Some(16), None];
    same(&rt, &credit(), &(given, 1), &"credit");
    let change = (Some(-65_515), None);
    same(&rt, &applied(4, 20), &change, &"an initial window of 20");
    same(
        &rt,
        &applied(4, 1 << 31),
        &(None, Some(3)),
        &"FLOW_CONTROL_ERROR",
    );
    same(
        &rt,
        &applied(5, 16_383),
        &(None, Some(1)),
        &"PROTOCOL_ERROR",
    );
}
