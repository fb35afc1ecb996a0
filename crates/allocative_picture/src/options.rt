//! The options of a picture.
ghost use Rattle.std.specs.Prelude.{◌≡◌, [], codes};

use allocative_collectors::output::WarnedPath;

/// In which order the children of a path are drawn, from left to right.
#[derive(Clone, Copy, Debug, PartialEq, Eq)]
pub enum Order {
    /// In the order of their keys.
    Key,
    /// The heaviest first, by their bytes with all below them; those that are as heavy in the order of their keys.
    Size,
}

/// The options of a picture.
#[derive(Clone, Copy)]
pub struct Options<'a> {
    /// The title above the picture. It may be any text.
    pub title: &'a str,
    /// The paths that have a warning, as `FlameGraphOutput::warned_paths` returns them, or without the filled maps and
    /// sets of std, as `FlameGraphOutput::warned_paths_outside_std` does. In the picture of a profile the box of such a
    /// path has a red edge. Each path also has a line below the picture, with both its sizes.
    pub warned: &'a [WarnedPath],
    /// The width of the narrowest box, in millionths of the width of the picture. A path has no box if its box would
    /// be narrower, or would have no width.
    pub narrowest: u32,
    /// What the sizes count: `bytes`, which are printed in binary units, or any text, as `samples`, of which thousands
    /// are printed as `1.2 k samples`.
    pub unit: &'a str,
    /// In which order the children of a path are drawn. Those of a change are compared by their bytes before and after
    /// together. `draw` takes its frames as they are.
    pub order: Order,
}

impl Options<'_> {
    /// The title `Declared bytes`, no warned paths, boxes of at least a two-thousandth of the width, the unit `bytes`,
    /// and children in the order of their keys.
    pub fn default() -> Options<'static>
        ensures title { result.title.now ≡ codes "Declared bytes" }
        ensures warned { result.warned.now ≡ [] }
        ensures narrowest { result.narrowest ≡ 500 }
        ensures unit { result.unit.now ≡ codes "bytes" }
        ensures order { result.order ≡ Order.Key }
    {
        Options {
            title: "Declared bytes",
            warned: &[],
            narrowest: 500,
            unit: "bytes",
            order: Order::Key,
        }
    }
}
