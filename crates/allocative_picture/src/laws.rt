//! The laws of pictures. Each is a function without parameters, whose contract is the law.
#![tactic(auto, using(crate::proofs::Geometry::laws, crate::proofs::Escaping::escapes))]

ghost use Rattle.allocative_picture.specs.Laws.{InsideLaw, ApartLaw, ShareLaw, WithinLaw, BoxesLaw, OnceLaw, ChangeLaw, ReverseLaw};
ghost use Rattle.allocative_picture.specs.Escape.{EscapeLaw};

/// The box of a path lies within the box of its parent, the path without its last key.
pub fn inside_law()
    ensures { InsideLaw }
{}

/// Boxes with one parent lie beside one another, in the order of their keys or by size.
pub fn apart_law()
    ensures { ApartLaw }
{}

/// The width of a box is its share of all bytes, to less than a millionth of the width.
pub fn share_law()
    ensures { ShareLaw }
{}

/// No box extends past the right edge of the picture.
pub fn within_law()
    ensures { WithinLaw }
{}

/// Each frame that is wide enough has one box, and no other frame has one.
pub fn boxes_law()
    ensures { BoxesLaw }
{}

/// Each path of a graph occurs once among the entries from which the frames are made.
pub fn once_law()
    ensures { OnceLaw }
{}

/// No byte of an escaped text begins or ends an element, a text or an attribute, and a reader of the markup finds the
/// text, with U+FFFD in place of unfit characters.
pub fn escape_law()
    ensures { EscapeLaw }
{}

/// The bytes of a path and all below it in the sum of two graphs are those in the two graphs together.
pub fn change_law()
    ensures { ChangeLaw }
{}

/// Reversing the paths of a graph twice gives each path its bytes back.
#[tactic(auto, using(crate::proofs::Viewing::reversed_twice))]
pub fn reverse_law()
    ensures { ReverseLaw }
{}
