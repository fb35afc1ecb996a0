//! Values that show less than they hold: a part is skipped, or shown by its size alone.
#![tactic(auto, using(allocative::proofs::Parts::parts))]

ghost use Rattle.std.specs.Prelude.{codes, Some};
ghost use Rattle.allocative.specs.Shows.{Nothing, Inside, Field, Both};

use allocative::{Allocative, Field, Inside, Part, Refusal, Visitor};
use std::ops::Range;
use std::path::PathBuf;

/// A document and where it is stored. The path is of a foreign type and is not shown.
#[derive(Drop)]
pub struct Document {
    pub title: String,
    pub path: PathBuf,
    pub pages: u32,
}

impl Allocative for Document {
    ghost may_show = { λ d. Inside (codes "Document") 64 (Both
        (Field (codes "title") (Some 24) (⟦<String as Allocative>⟧.may_show d.title))
        (Field (codes "pages") (Some 4) (⟦<u32 as Allocative>⟧.may_show d.pages))) };

    fn visit(&self, visitor: &mut Visitor<'_>) -> Result<(), Refusal> {
        let title = Field("title", &self.title);
        let pages = Field("pages", &self.pages);
        Inside("Document", 64, (title, pages)).enter(visitor)
    }
}

/// A day and its least and greatest warmth, which are of a foreign type and shown only by their size.
#[derive(Drop)]
pub struct Day {
    pub number: u16,
    pub weather: Range<u32>,
}

impl Allocative for Day {
    ghost may_show = { λ d. Inside (codes "Day") 12 (Both
        (Field (codes "number") (Some 2) (⟦<u16 as Allocative>⟧.may_show d.number))
        (Inside (codes "weather") 8 Nothing)) };

    fn visit(&self, visitor: &mut Visitor<'_>) -> Result<(), Refusal> {
        let number = Field("number", &self.number);
        let weather = Inside("weather", 8, ());
        Inside("Day", 12, (number, weather)).enter(visitor)
    }
}
