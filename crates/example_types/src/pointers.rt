//! A pointer to a value that several owners share.
#![tactic(auto, using(allocative::proofs::Parts::parts))]

ghost use Rattle.std.specs.Prelude.{codes, Some};
ghost use Rattle.allocative.specs.Shows.{Inside, Field, Shared};

use allocative::{
    Allocative, Described, Field, Identity, Inside, Key, Part, Refusal, Shared, Visitor,
};
use std::rc::Rc;

/// A user's own pointer type: pointers with one page number share the page.
#[derive(Drop)]
pub struct PageLink<T: Drop> {
    pub number: u64,
    pub page: Rc<T>,
}

impl<T: Allocative + Described> Allocative for PageLink<T> {
    ghost may_show = { λ l. Inside (codes "PageLink") 16
        (Shared (codes "page") 8 (record { maker = 0; number = l.number })
        (Field (codes "Page") T.layout.size (T.may_show l.page.value))) };

    fn visit(&self, visitor: &mut Visitor<'_>) -> Result<(), Refusal> {
        let page = Shared {
            key: Key::new("page"),
            size: 8,
            identity: Identity::new(0, self.number),
            content: Field("Page", &*self.page),
        };
        Inside("PageLink", 16, page).enter(visitor)
    }
}
