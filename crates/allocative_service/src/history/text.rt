//! Changes as text.
ghost use Rattle.std.specs.Prelude.{OnOk};
ghost use Rattle.allocative.specs.Format.{AppendsText, IfText};
ghost use Rattle.allocative_service.specs.Changes.{change_data, data_of, line_of, total_line, Reports};

use crate::history::changes::{Change, by_growth};
use allocative::push_path;
use std::alloc::{AllocError, Global};

/// The changes as text. The first line says by how many bytes all of them together grew and shrank. Below it each
/// change has a line `earlier -> later path`, the greatest growth first and the greatest shrinkage last. The only error
/// is that memory runs out.
pub fn report(alloc: Global, changes: &[Change]) -> Result<String, AllocError>
    ensures { IfText result (Reports (data_of changes.now)) }
{
    let mut text = String::new(alloc);
    push_total(changes, &mut text)?;
    let list = by_growth(alloc, changes)?;
    for change in &list {
        push_line(change, &mut text)?;
    }
    Ok(text)
}

/// Appends by how many bytes all changes together grew and shrank.
fn push_total(changes: &[Change], text: &mut String) -> Result<(), AllocError>
    ensures { OnOk result (AppendsText text.old text.new (total_line (data_of changes.now))) }
{
    let mut more = 0u128;
    let mut less = 0u128;
    for change in changes {
        more += change.growth() as u128;
        less += change.shrinkage() as u128;
    }
    write!(text, "{more} bytes more, {less} bytes less\n")
}

/// Appends the line of a change.
fn push_line(change: &Change, text: &mut String) -> Result<(), AllocError>
    ensures { OnOk result (AppendsText text.old text.new (line_of (change_data change.now))) }
{
    let (earlier, later) = (change.earlier, change.later);
    write!(text, "{earlier} -> {later} ")?;
    push_path(change.path.as_slice(), text)?;
    text.push('\n')
}
