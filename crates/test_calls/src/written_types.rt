//! The text of types by hand, of `example_types`, and of those whose implementations `bin/implement` wrote.
use crate::texts::{counted, is_output, is_text, made, show};
use allocative::{IdArc, Identity, Key, Named as Root, Refusal, profile_text, profile_values};
use bytes::Bytes;
use example_types::enums::Request;
use example_types::gauges::Gauge;
use example_types::groups::Sale;
use example_types::locked::Store;
use example_types::nodes::Node;
use example_types::plugins::{Loaded, Plugin};
use example_types::pointers::PageLink;
use example_types::services::{Sensor, Sensors};
use example_types::structs::{Named, Point};
use example_types::titled::Titled;
use example_types::trees::Tree;
use example_types::wrappers::{Day, Document};
use std::alloc::{AllocError, Global};
use std::collections::BTreeMap;
use std::net::{IpAddr, Ipv4Addr, SocketAddr};
use std::path::PathBuf;
use std::rc::Rc;
use std::sync::{Mutex, RwLock};
use std::test::Fail;
use test_generated_types::placed::OfOne;
use test_generated_types::received::{Origin, Received};
use test_generated_types::types::{Event, Found, Json, Placed};
use url::Url;
use uuid::Uuid;

#[test]
fn types_in_place(rt: HostRuntime) -> Result<(), Fail> {
    let day = Day {
        number: 3,
        weather: 1..2,
    };
    show(
        rt.alloc(),
        &[
            (&Point { x: 1, y: 2 }, "Point;x;u32 4\nPoint;y;u32 4\n"),
            (&day, "Day 2\nDay;number;u16 2\nDay;weather 8\n"),
            (&Gauge { reading: 5 }, "Gauge;reading;u64 8\n"),
            (
                &Request::Move(1, 2),
                "Request 32\nRequest;from;u32 4\nRequest;to;u32 4\n",
            ),
            (&OfOne { number: 5 }, "OfOne;number;u64 8\n"),
            (
                &Placed::Somewhere(5u8, 0.5),
                "Placed;Somewhere 15\nPlaced;Somewhere;0;u8 1\n",
            ),
            (
                &Placed::<u8>::Between(1, 2),
                "Placed 8\nPlaced;Between;0;u32 4\nPlaced;Between;1;u32 4\n",
            ),
        ],
    )
}

fn named(alloc: Global) -> Result<Named<Option<u16>>, AllocError> {
    Ok(Named {
        name: String::from_str(alloc, "ab")?,
        value: Some(3),
        is_read: true,
    })
}

fn document(alloc: Global) -> Result<Document, AllocError> {
    Ok(Document {
        title: String::new(alloc),
        path: PathBuf::from_str(alloc, "a/b")?,
        pages: 3,
    })
}

fn node(alloc: Global) -> Result<Node, AllocError> {
    let child = Node {
        label: 2,
        children: Vec::new(alloc),
    };
    Ok(Node {
        label: 1,
        children: vec![in alloc; child]?,
    })
}

fn tree(alloc: Global) -> Result<Tree, AllocError> {
    let left = Box::new(alloc, Tree::Leaf(1))?;
    let right = Box::new(alloc, Tree::Leaf(2))?;
    Ok(Tree::Fork(left, right))
}

#[test]
fn types_by_hand(rt: HostRuntime) -> Result<(), Fail> {
    let alloc = rt.alloc();
    let text =
        "Named 35\nNamed;is_read;bool 1\nNamed;name;String 16\nNamed;name;String;ptr 8\nNamed;name;String;ptr;capacity;u8 2\nNamed;value;Option 2\nNamed;value;Option;Some;u16 2\n";
    made(alloc, named(alloc), text)?;
    let text =
        "Document 36\nDocument;pages;u32 4\nDocument;title;String 16\nDocument;title;String;ptr 8\n";
    made(alloc, document(alloc), text)?;
    let sale = Sale {
        name: String::new(alloc),
        number: 7,
        amount: 2,
    };
    let text =
        "Sale 4\nSale;amount;u32 4\nSale;name;String 16\nSale;name;String;ptr 8\nSale;number;u64 8\n";
    made(alloc, Ok::<_, AllocError>(sale), text)?;
    let text =
        "Node 4\nNode;children;Vec 16\nNode;children;Vec;ptr 8\nNode;children;Vec;ptr;Node 4\nNode;children;Vec;ptr;Node;children;Vec 24\nNode;children;Vec;ptr;Node;label;u32 4\nNode;label;u32 4\n";
    made(alloc, node(alloc), text)?;
    let text =
        "Tree 8\nTree;left;Box;ptr 8\nTree;left;Box;ptr;Tree 16\nTree;left;Box;ptr;Tree;Leaf;u64 8\nTree;right;Box;ptr 8\nTree;right;Box;ptr;Tree 16\nTree;right;Box;ptr;Tree;Leaf;u64 8\n";
    made(alloc, tree(alloc), text)
}

/// Fails if the profile of a store has another text.
fn is_store(alloc: Global, store: &Store, want: &str) -> Result<(), Fail> {
    is_output(&store.profile(alloc)?, want)
}

#[test]
fn parts_behind_locks_are_one_graph(rt: HostRuntime) -> Result<(), Fail> {
    let store = Store {
        orders: Mutex::new(Vec::new(rt.alloc())),
        limit: RwLock::new(5),
    };
    is_store(rt.alloc(), &store, "limit;u32 4\norders;Vec 24\n")?;
    let _held = store.orders.try_lock().ok_or("a new lock is free")?;
    is_store(rt.alloc(), &store, "limit;u32 4\n")
}

/// The text of two pointers to one page.
fn text_of_links(alloc: Global) -> Result<String, Refusal> {
    let page = Rc::new(alloc, 1u16)?;
    let left = PageLink {
        number: 7,
        page: page.clone()?,
    };
    let right = PageLink { number: 7, page };
    profile_values(alloc, &[left, right])?.flamegraph().write()
}

/// The text of two sensors with names.
fn text_of_sensors(alloc: Global) -> Result<String, Refusal> {
    let mut sensors = Sensors::new(alloc);
    for (name, count) in [("door", 1), ("wall", 2)] {
        let sensor = Root(Key::new(name), Sensor { count });
        sensors.register(sensor).or(Err(Refusal::Memory))?;
    }
    sensors.profile()?.flamegraph().write()
}

#[test]
fn roots_of_one_type(rt: HostRuntime) -> Result<(), Fail> {
    let text = "Page;u16 2\nPageLink 16\nPageLink;page 16\n";
    is_text(text_of_links(rt.alloc())?.as_str(), text)?;
    let text = "door;Sensor;count;u64 8\nwall;Sensor;count;u64 8\n";
    is_text(text_of_sensors(rt.alloc())?.as_str(), text)
}

/// The text of two shared numbers, of which one has two pointers.
fn text_of_shared(alloc: Global) -> Result<String, Refusal> {
    let tea = Titled(Root(Key::new("tea"), 1u64));
    let bread = Titled(Root(Key::new("bread"), 2u64));
    let tea = IdArc::new(alloc, tea, Identity::from(1))?;
    let bread = IdArc::new(alloc, bread, Identity::from(2))?;
    let roots = [tea.clone()?, tea, bread];
    profile_values(alloc, &roots)?.flamegraph().write()
}

#[test]
fn shared_contents_have_names(rt: HostRuntime) -> Result<(), Fail> {
    let text = "Arc;ptr 24\nArcInner 32\nArcInner;bread;u64 8\nArcInner;tea;u64 8\n";
    is_text(text_of_shared(rt.alloc())?.as_str(), text)
}

/// Reports so many bytes.
#[derive(Drop)]
struct Reporter(usize);

impl Plugin for Reporter {
    fn bytes(&self) -> usize {
        self.0
    }
}

/// The text of a plugin that reports 100 bytes.
fn text_of_plugin(alloc: Global) -> Result<String, Refusal> {
    let plugin = Box::new(alloc, Reporter(100))?;
    profile_text(alloc, &vec![in alloc; Loaded { plugin }]?)
}

#[test]
fn a_plugin_reports_its_bytes(rt: HostRuntime) -> Result<(), Fail> {
    let text = "Vec 16\nVec;ptr 8\nVec;ptr;Loaded;plugin 16\nVec;ptr;Loaded;plugin;reported 100\n";
    is_text(text_of_plugin(rt.alloc())?.as_str(), text)
}

/// The address of the host itself.
fn home() -> SocketAddr {
    SocketAddr::new(IpAddr::V4(Ipv4Addr::new(127, 0, 0, 1)), 80)
}

/// An address and a file.
fn origins(alloc: Global) -> Result<Vec<Origin>, AllocError> {
    let path = PathBuf::from_str(alloc, "a/b")?;
    Ok(vec![in alloc; Origin::Peer(home()), Origin::File { path, line: 7 }]?)
}

fn received(alloc: Global) -> Result<Received, AllocError> {
    let callback = Url::parse(alloc, "http://a/").or(Err(AllocError))?;
    Ok(Received {
        id: Uuid::nil(),
        callback,
        body: Bytes::from_static(b"abcd"),
        peer: home(),
        file: PathBuf::from_str(alloc, "a/b")?,
        tried: None,
    })
}

fn event(alloc: Global) -> Result<Event, AllocError> {
    Ok(Event::Sale {
        place: (1, 2),
        weight: 0.5,
        shelf: 3,
        prices: vec![in alloc; 4, 5]?,
    })
}

/// A pair of nothing and of a list with an empty table.
fn json(alloc: Global) -> Result<Json, AllocError> {
    Ok(Json::Pair {
        first: Some(Box::new(alloc, Json::Null)?),
        rest: vec![in alloc; Json::Table(BTreeMap::new(alloc))]?,
    })
}

#[test]
fn written_types(rt: HostRuntime) -> Result<(), Fail> {
    let alloc = rt.alloc();
    let text =
        "Received 7\nReceived;body;Bytes 24\nReceived;body;Bytes;ptr 8\nReceived;body;Bytes;ptr;u8 4\nReceived;callback;Url 80\nReceived;callback;Url;ptr 8\nReceived;callback;Url;ptr;u8 9\nReceived;file;PathBuf 16\nReceived;file;PathBuf;ptr 8\nReceived;file;PathBuf;ptr;u8 3\nReceived;id;Uuid 16\nReceived;peer;SocketAddr 32\nReceived;tried;Option 17\n";
    counted(alloc, received(alloc), text)?;
    let text =
        "Vec 16\nVec;ptr 8\nVec;ptr;Origin 16\nVec;ptr;Origin;File;line;u64 8\nVec;ptr;Origin;File;path;PathBuf 16\nVec;ptr;Origin;File;path;PathBuf;ptr 8\nVec;ptr;Origin;File;path;PathBuf;ptr;u8 3\nVec;ptr;Origin;Peer;SocketAddr 32\n";
    counted(alloc, origins(alloc), text)?;
    let text =
        "Event 8\nEvent;Sale 8\nEvent;Sale;place 16\nEvent;Sale;prices;Vec 16\nEvent;Sale;prices;Vec;ptr 8\nEvent;Sale;prices;Vec;ptr;u64 16\nEvent;Sale;shelf;u64 8\n";
    counted(alloc, event(alloc), text)?;
    let found: Found<'static, 2> = Found(1, 2, 3, [4, 5], BTreeMap::new(alloc), 0.5, "ab");
    let text =
        "Found 21\nFound;0;u8 1\nFound;1;u8 1\nFound;2;u8 1\nFound;3;u32;data;u32 8\nFound;4;BTreeMap 16\nFound;4;BTreeMap;data 8\nFound;5 8\n";
    made(alloc, Ok::<_, AllocError>(found), text)?;
    let text =
        "Json 8\nJson;Pair;first;Option 8\nJson;Pair;first;Option;Some;Box;ptr 8\nJson;Pair;first;Option;Some;Box;ptr;Json 48\nJson;Pair;rest;Vec 16\nJson;Pair;rest;Vec;ptr 8\nJson;Pair;rest;Vec;ptr;Json 24\nJson;Pair;rest;Vec;ptr;Json;Table;BTreeMap 16\nJson;Pair;rest;Vec;ptr;Json;Table;BTreeMap;data 8\n";
    made(alloc, json(alloc), text)
}
