//! Figures as texts.
ghost use Rattle.std.specs.Prelude.{◌≡◌, ◌*◌, ◌<◌, Some};
ghost use Rattle.allocative_picture.specs.Boxes.{unit_of, step_of, amount_text, full_text, is_also_in_full, stepped, percent_text, place_text};

use std::fmt;

/// An amount and its unit, printed in its greatest power of a thousand, for example as `1.2 M samples`, and bytes in
/// their greatest binary unit, as `1.5 KiB`. Both are rounded down to tenths.
#[derive(Clone, Copy)]
pub(crate) struct Amount<'a>(pub usize, pub &'a str);

/// An amount and its unit, printed as an `Amount` and also in full, for example as `1.5 KiB (1536 bytes)`.
#[derive(Clone, Copy)]
pub(crate) struct Full<'a>(pub usize, pub &'a str);

/// Millionths of all, printed as a number of percent and rounded down, for example `12.34`.
#[derive(Clone, Copy)]
pub(crate) struct Percent(pub u128);

/// Millionths of the width, printed in percent, for example `12.3456%`.
#[derive(Clone, Copy)]
pub(crate) struct Place(pub u128);

/// The greatest binary unit that some bytes reach, in bytes, and its name.
fn unit_of(bytes: usize) -> (usize, &'static str)
    ensures bytes { result.0 ≡ (unit_of bytes).0 }
    ensures name { result.1.now ≡ (unit_of bytes).1 }
{
    match bytes {
        0..=0x3ff => (1, "B"),
        0x400..=0xf_ffff => (0x400, "KiB"),
        0x10_0000..=0x3fff_ffff => (0x10_0000, "MiB"),
        0x4000_0000..=0xff_ffff_ffff => (0x4000_0000, "GiB"),
        0x100_0000_0000..=0x3_ffff_ffff_ffff => (0x100_0000_0000, "TiB"),
        0x4_0000_0000_0000..=0xfff_ffff_ffff_ffff => (0x4_0000_0000_0000, "PiB"),
        _ => (0x1000_0000_0000_0000, "EiB"),
    }
}

/// The greatest power of a thousand that a number reaches, and its letter.
fn step_of(number: usize) -> (usize, &'static str)
    ensures step { result.0 ≡ (step_of number).0 }
    ensures letter { result.1.now ≡ (step_of number).1 }
{
    match number {
        0..=999 => (1, ""),
        1_000..=999_999 => (1_000, "k "),
        1_000_000..=999_999_999 => (1_000_000, "M "),
        1_000_000_000..=999_999_999_999 => (1_000_000_000, "G "),
        1_000_000_000_000..=999_999_999_999_999 => (1_000_000_000_000, "T "),
        1_000_000_000_000_000..=999_999_999_999_999_999 => (1_000_000_000_000_000, "P "),
        _ => (1_000_000_000_000_000_000, "E "),
    }
}

/// Whether an amount in a unit is also printed in full.
pub(crate) fn is_also_in_full(amount: usize, unit: &str) -> bool
    ensures { result ≡ is_also_in_full unit.now amount }
{
    unit == "bytes" || amount >= 1000
}

/// A number and a step, printed as a multiple of the step with one decimal, or as it is if the step is 1.
#[derive(Clone, Copy)]
struct Stepped(usize, usize);

#[tactic(auto, unfolding(crate::specs::Boxes::stepped))]
impl fmt::Display for Stepped {
    ghost output = { λ s. Some (stepped s.0 s.1) };

    fn fmt<W: fmt::Write>(&self, f: &mut fmt::Formatter<W>) -> fmt::Result {
        let Stepped(number, step) = *self;
        if step < 2 {
            return write!(f, "{number} ");
        }
        let whole = number / step;
        let tenths = (number % step) as u128 * 10 / step as u128;
        write!(f, "{whole}.{tenths} ")
    }
}

#[tactic(auto, unfolding(crate::specs::Boxes::amount_text, crate::specs::Boxes::size_text))]
impl fmt::Display for Amount<'_> {
    ghost output = { λ a. Some (amount_text a.1.now a.0) };

    fn fmt<W: fmt::Write>(&self, f: &mut fmt::Formatter<W>) -> fmt::Result {
        let Amount(amount, unit) = *self;
        if unit == "bytes" {
            let (bytes, name) = unit_of(amount);
            return write!(f, "{}{name}", Stepped(amount, bytes));
        }
        let (step, letter) = step_of(amount);
        write!(f, "{}{letter}{unit}", Stepped(amount, step))
    }
}

#[tactic(auto, unfolding(crate::specs::Boxes::full_text))]
impl fmt::Display for Full<'_> {
    ghost output = { λ a. Some (full_text a.1.now a.0) };

    fn fmt<W: fmt::Write>(&self, f: &mut fmt::Formatter<W>) -> fmt::Result {
        let Full(amount, unit) = *self;
        write!(f, "{}", Amount(amount, unit))?;
        if is_also_in_full(amount, unit) {
            write!(f, " ({amount} {unit})")?;
        }
        Ok(())
    }
}

#[tactic(auto, unfolding(crate::specs::Boxes::percent_text))]
impl fmt::Display for Percent {
    ghost output = { λ p. Some (percent_text p.0) };

    fn fmt<W: fmt::Write>(&self, f: &mut fmt::Formatter<W>) -> fmt::Result {
        let share = self.0;
        let (whole, tenths, hundredths) = (share / 10_000, share / 1_000 % 10, share / 100 % 10);
        write!(f, "{whole}.{tenths}{hundredths}")
    }
}

#[tactic(auto, unfolding(crate::specs::Boxes::place_text))]
impl fmt::Display for Place {
    ghost output = { λ p. Some (place_text p.0) };

    fn fmt<W: fmt::Write>(&self, f: &mut fmt::Formatter<W>) -> fmt::Result {
        let place = self.0;
        let (third, fourth) = (place / 10 % 10, place % 10);
        write!(f, "{}{third}{fourth}%", Percent(place))
    }
}
