//! The forms of a payload in a script. The definition is `payload_at` of `h2_spec`, specs/Texts/Assemble.antt.

ghost use Rattle.std.specs.Prelude.{◌≡◌, ◌++◌, ◌==◌, if◌then◌else◌, length, option_map, flat_map, IfOk, OnOk, Option, Some, None};
ghost use Rattle.h2_spec.specs.Texts.Assemble.{all_at, number_at, payload_at, setting_at};
ghost use Rattle.h2_spec.specs.Octets.{big_endian};
ghost use Rattle.h2_spec.specs.Texts.Script.{Payload, Code, Empty, Increment, payload_octets, setting_octets};
ghost use Rattle.h2_script.specs.Readings.{IsBuilt};

use crate::built::Built;
use crate::instruction::instructions_at;
use crate::number::number_at;
use crate::words::{after, cut, octets_at, split_before};
use std::alloc::{AllocError, Allocator};

/// The payload that a text says; none where it is of no form.
#[tactic(auto, unfolding(h2_spec::specs::Texts::Assemble::payload_at))]
pub(crate) fn payload_at<A: Allocator + Copy>(
    alloc: A,
    text: &[u8],
) -> Result<Option<Built<A>>, AllocError>
    ensures { IfOk result (λ o. IsBuilt o (payload_at text.now)) }
{
    let Some((form, rest)) = text.split_first() else {
        return Ok(None);
    };
    match *form {
        b'-' => Ok(empty_at(alloc, rest)),
        b'x' => Ok(whole(octets_at(alloc, rest)?)),
        b's' => Ok(whole(settings_at(alloc, rest)?)),
        b'w' => increment_at(alloc, rest),
        b'c' => code_at(alloc, rest),
        b'h' => instructions_at(alloc, rest),
        _ => Ok(None),
    }
}

/// No octets, where nothing follows.
fn empty_at<A: Allocator>(alloc: A, rest: &[u8]) -> Option<Built<A>>
    ensures { IsBuilt result (if length rest.now == 0 then Some Empty else None) }
{
    if rest.is_empty() {
        Some(Built::Whole(Vec::new(alloc)))
    } else {
        None
    }
}

/// Octets that were all written out.
fn whole<A: Allocator>(octets: Option<Vec<u8, A>>) -> Option<Built<A>>
    ensures { (read : Option Payload) → option_map (λ v. v.items) octets ≡ option_map payload_octets read → IsBuilt result read }
{
    match octets {
        Some(octets) => Some(Built::Whole(octets)),
        None => None,
    }
}

/// The increment of a window, as four octets.
fn increment_at<A: Allocator>(alloc: A, text: &[u8]) -> Result<Option<Built<A>>, AllocError>
    ensures { IfOk result (λ o. IsBuilt o (option_map Increment (number_at 2147483647 text.now))) }
{
    match number_at(2_147_483_647, text) {
        Some(number) => Ok(Some(Built::Whole(four_octets(alloc, number)?))),
        None => Ok(None),
    }
}

/// An error code, as four octets.
fn code_at<A: Allocator>(alloc: A, text: &[u8]) -> Result<Option<Built<A>>, AllocError>
    ensures { IfOk result (λ o. IsBuilt o (option_map Code (number_at 4294967295 text.now))) }
{
    match number_at(4_294_967_295, text) {
        Some(number) => Ok(Some(Built::Whole(four_octets(alloc, number)?))),
        None => Ok(None),
    }
}

/// A number as four octets, the highest first.
fn four_octets<A: Allocator>(alloc: A, number: u32) -> Result<Vec<u8, A>, AllocError>
    ensures { IfOk result (λ v. v.items ≡ big_endian 4 number) }
{
    Vec::from_slice(alloc, &number.to_be_bytes())
}

/// The octets of settings with commas between.
fn settings_at<A: Allocator>(alloc: A, text: &[u8]) -> Result<Option<Vec<u8, A>>, AllocError>
    ensures { IfOk result (λ o. option_map (λ v. v.items) o ≡ option_map (flat_map setting_octets) (all_at setting_at text.now)) }
{
    let mut octets = Vec::new(alloc);
    let mut rest = text;
    for _turn in 0..text.len() + 1 {
        let Some((setting, behind)) = setting_at(rest) else {
            return Ok(None);
        };
        push_setting(setting, &mut octets)?;
        if behind.is_empty() {
            return Ok(Some(octets));
        }
        let Some(more) = after(behind, b',') else {
            return Ok(None);
        };
        rest = more;
    }
    Ok(None)
}

/// The setting at the front of a text, and what follows it.
#[tactic(auto, unfolding(h2_spec::specs::Texts::Assemble::setting_at))]
fn setting_at(text: &[u8]) -> Option<((u16, u32), &[u8])>
    ensures { option_map (λ p. (p.0, p.1.now)) result ≡ setting_at text.now }
{
    let (word, behind) = split_before(text, b',');
    let (id, value) = cut(word, b'=')?;
    let id = number_at(65_535, id)?;
    let value = number_at(4_294_967_295, value)?;
    Some(((id as u16, value), behind))
}

/// Appends a setting's six octets (RFC 9113, 6.5.1).
fn push_setting<A: Allocator>(setting: (u16, u32), out: &mut Vec<u8, A>) -> Result<(), AllocError>
    ensures { OnOk result (out.new.items ≡ out.old.items ++ setting_octets setting) }
{
    out.extend_from_slice(&setting.0.to_be_bytes())?;
    out.extend_from_slice(&setting.1.to_be_bytes())?;
    Ok(())
}
