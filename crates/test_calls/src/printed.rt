//! Texts and numbers that no clause gives: of refusals, rejections, faults, a cache's errors and a key.
use crate::texts::is_text;
use allocative::{Key, LineFault, ReadFault, Refusal};
use allocative_service::cache::CacheError;
use allocative_service::ledger::Rejection;
use std::alloc::Global;
use std::fmt::Display;
use std::test::Fail;

/// Fails if a value prints another text.
fn says<D: Display + Drop>(alloc: Global, told: D, want: &str) -> Result<(), Fail> {
    is_text(format!(in alloc; "{told}")?.as_str(), want)
}

#[test]
fn refusals_and_errors_have_their_texts(rt: HostRuntime) -> Result<(), Fail> {
    let alloc = rt.alloc();
    says(alloc, Refusal::Memory, "out of memory")?;
    says(alloc, Refusal::TooLarge, "sizes do not fit")?;
    says(alloc, Refusal::Open, "a visitor was forgotten")?;
    let numbers = [
        Refusal::Memory as u8,
        Refusal::TooLarge as u8,
        Refusal::Open as u8,
    ];
    assert!(rt; numbers == [1, 2, 3]);
    let error = CacheError::NotMeasured(Refusal::Open);
    says(alloc, error, "not measured: a visitor was forgotten")?;
    let (bytes, bound) = (88, 48);
    let error = CacheError::TooLarge { bytes, bound };
    says(alloc, error, "88 bytes do not fit a bound of 48")?;
    says(alloc, CacheError::Memory, "out of memory")?;
    let key = Key::new("count");
    says(alloc, format_args!("{key:?}"), "\"count\"")
}

#[test]
fn rejections_have_their_texts(rt: HostRuntime) -> Result<(), Fail> {
    let (bytes, limit, less, number) = (7, 5, 8, 2);
    let rows = [
        (
            Rejection::OverBudget { bytes, limit },
            "7 bytes exceed a limit of 5",
        ),
        (
            Rejection::LedgerFull { bytes, limit },
            "7 bytes in all exceed a limit of 5",
        ),
        (
            Rejection::OverCredit { bytes, less },
            "a credit of 8 bytes exceeds an entry of 7",
        ),
        (
            Rejection::NotMeasured(Refusal::TooLarge),
            "not measured: sizes do not fit",
        ),
        (Rejection::TooLarge, "sizes do not fit"),
        (Rejection::NotKept, "out of memory"),
        (Rejection::NoAccount, "there is no account"),
        (Rejection::HasAccount, "there is an account already"),
        (Rejection::Taken { number }, "there is an entry 2 already"),
        (Rejection::NotThere { number }, "there is no entry 2"),
    ];
    for (rejection, want) in rows {
        says(rt.alloc(), rejection, want)?;
    }
    Ok(())
}

#[test]
fn faults_say_why(rt: HostRuntime) -> Result<(), Fail> {
    let alloc = rt.alloc();
    let text = "line 3 is not a path, a space and a number of bytes: there is no space";
    says(alloc, ReadFault::Line(3, LineFault::NoSpace), text)?;
    let text = "there is no path before the last space";
    says(alloc, LineFault::NoPath, text)?;
    let text = "there is no number of bytes behind the last space";
    says(alloc, LineFault::NoNumber, text)?;
    let text = "the number of bytes exceeds usize::MAX";
    says(alloc, LineFault::TooLarge, text)?;
    let text = "the path has more than 10000 keys";
    says(alloc, LineFault::TooDeep, text)
}
