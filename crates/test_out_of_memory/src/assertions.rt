//! What tests assert of refusals, graphs and outputs, and values that are made by a second try where the first was
//! refused.
use allocative::{FlameGraph, FlameGraphOutput, Refusal};
use allocative_json::Fault;
use std::alloc::AllocGlobal;
use std::process::Abort;

/// Asserts a text.
pub(crate) fn assert_same(rt: &impl Abort, text: &str, want: &str) {
    assert_eq!(rt; text, want);
}

pub(crate) fn assert_count(rt: &impl Abort, count: usize, want: usize) {
    assert_eq!(rt; count, want);
}

/// Asserts that a call was refused for want of memory.
pub(crate) fn assert_refused(rt: &impl Abort, refusal: Refusal) {
    assert!(rt; refusal == Refusal::Memory);
}

/// A box of a value. A refused call hands the value back.
pub(crate) fn boxed<T: Drop>(rt: &(impl Abort + AllocGlobal), value: T) -> Box<T> {
    match Box::new(rt.alloc(), value) {
        Ok(made) => made,
        Err(refused) => Box::new(rt.alloc(), refused.value).expect(rt, "a box"),
    }
}

/// What a call makes. Where it is refused for want of memory, the same call makes it anew.
pub(crate) fn made<T, F: Fn() -> Result<T, Fault>>(rt: &impl Abort, make: F) -> T
    requires { F.IsAlwaysCallable make }
{
    match make() {
        Ok(made) => made,
        Err(fault) => {
            assert!(rt; fault == Fault::Memory);
            make().expect(rt, "what is made anew")
        }
    }
}

/// The text of a graph.
pub(crate) fn written(rt: &impl Abort, graph: &FlameGraph) -> String {
    made(rt, || Ok(graph.write()?))
}

/// Asserts the text of a graph, also after a refused call.
pub(crate) fn assert_text(rt: &impl Abort, graph: &FlameGraph, want: &str) {
    assert_same(rt, written(rt, graph).as_str(), want);
}

/// Asserts the text and the warnings of an output, none of which is outside std's maps and sets, or that it was
/// refused.
pub(crate) fn assert_output(
    rt: &impl Abort,
    answer: Result<FlameGraphOutput, Refusal>,
    text: &str,
    warnings: &str,
) {
    match answer {
        Ok(output) => {
            let copy = made(rt, || Ok(output.warnings()?));
            assert_same(rt, copy.as_str(), warnings);
            let outside = made(rt, || Ok(output.warned_paths_outside_std()?));
            assert_count(rt, outside.len(), 0);
            assert_text(rt, output.flamegraph(), text);
        }
        Err(refusal) => assert_refused(rt, refusal),
    }
}
