//! Texts in the differential form, whose lines have two counts.
ghost use Rattle.std.specs.Prelude.{◌↔◌, IsTrue};
ghost use Rattle.allocative_picture_filter.specs.Differential.{HasTwoCounts, IsDifferential};

use allocative_graph::read::is_numeral;

// Whether a line ends in two counts.
fn has_two_counts(line: &str) -> bool
    ensures { IsTrue result ↔ HasTwoCounts line.now }
{
    let Some((front, second)) = line.rsplit_once(' ') else {
        return false;
    };
    let Some((_, first)) = front.rsplit_once(' ') else {
        return false;
    };
    is_numeral(first) && is_numeral(second)
}

/// Whether a text has a line that is not blank, and each such line ends in two counts.
pub fn is_differential(text: &str) -> bool
    ensures { IsTrue result ↔ IsDifferential text.now }
{
    text.lines().any(|line| !line.is_empty())
        && text
            .lines()
            .all(|line| line.is_empty() || has_two_counts(line))
}
