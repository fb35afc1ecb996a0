//! A picture with marks, as a browser gets it. The stored runs of the programs have those without marks.
use allocative::{FlameGraph, Refusal, WarnedPath};
use allocative_picture::options::Options;
use allocative_picture::picture::picture;

/// The beginning, the title, the line of totals, and all boxes with what follows them.
const MARKED: [&str; 4] = [
    "<svg xmlns=\"http://www.w3.org/2000/svg\" width=\"100%\" height=\"158\" font-size=\"12\">\n<style>",
    "<text class=\"title\" x=\"8\" y=\"22\">A &amp; B</text>\n",
    "<text class=\"sum say\" x=\"8\" y=\"42\">3.0 KiB (3072 bytes) declared; 3 paths drawn, 1 too narrow even for zoom: lower `narrowest`, or draw an `outline`</text>\n",
    "Whole</text></svg>\n\
<svg class=\"b root\" x=\"0.0000%\" y=\"54\" width=\"100.0000%\" height=\"18\"><title>all\n3.0 KiB (3072 bytes), 100.00% of all\n0 B (0 bytes) of its own</title><rect width=\"100%\" height=\"100%\" rx=\"2\"/><text x=\"4\" y=\"13\">all<tspan class=\"n\" dx=\"8\">3.0 KiB</tspan></text></svg>\n\
<svg class=\"b warned\" x=\"0.0000%\" y=\"72\" width=\"100.0000%\" height=\"18\"><title>Map\n3.0 KiB (3072 bytes), 100.00% of all\n1000 B (1000 bytes) of its own\ndeclared smaller than its parts: see the warnings</title><rect width=\"100%\" height=\"100%\" rx=\"2\"/><text x=\"4\" y=\"13\">Map<tspan class=\"n\" dx=\"8\">3.0 KiB</tspan></text></svg>\n\
<svg class=\"b spare\" x=\"32.5846%\" y=\"90\" width=\"67.4154%\" height=\"18\"><title>unused_capacity\n2.0 KiB (2071 bytes), 67.41% of all</title><rect width=\"100%\" height=\"100%\" rx=\"2\"/><text x=\"4\" y=\"13\">unused_capacity<tspan class=\"n\" dx=\"8\">2.0 KiB</tspan></text></svg>\n<text class=\"warn\" x=\"8\" y=\"132\">Incorrect size declaration for node `Map`, size of self: 1, size of inline children: 2</text>\n\
<text class=\"warn\" x=\"8\" y=\"148\">Incorrect size declaration for node `Map;&lt;thin&gt;`, size of self: 30, size of inline children: 400</text>\n<script>",
];

/// The child `Map` has unused capacity and a child too narrow to be drawn.
#[test]
fn warned_and_unused_paths_are_marked(rt: HostRuntime) -> Result<(), Refusal> {
    let alloc = rt.alloc();
    let lines = "Map 1000\nMap;thin 1\nMap;unused_capacity 2071\n";
    let graph = FlameGraph::read(alloc, lines).expect(&rt, "a graph");
    let warned = [
        WarnedPath {
            path: ["Map"].to_vec(alloc)?,
            self_size: 1,
            children_size: 2,
        },
        WarnedPath {
            path: ["Map", "<thin>"].to_vec(alloc)?,
            self_size: 30,
            children_size: 400,
        },
    ];
    let options = Options {
        title: "A & B",
        warned: &warned,
        ..Options::default()
    };
    let text = picture(alloc, &graph, &options)?;
    assert!(rt; text.starts_with(MARKED[0]) && text.ends_with("]]></script>\n</svg>\n"));
    for part in MARKED {
        assert!(rt; text.contains(part), "{part}");
    }
    Ok(())
}
